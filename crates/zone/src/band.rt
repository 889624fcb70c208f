ghost use Rattle.std.specs.Prelude.{◌≡◌};
ghost use Rattle.std.specs.List.{All, AllZip};

use crate::rule::Zone;
use std::alloc::AllocError;

// Two bounds, and the zone that the samples so far brought.
pub struct Band<K> {
    pub(crate) lower: K,
    pub(crate) upper: K,
    pub(crate) zone: Zone,
}

// The bands of one variable: number n at place n - 1. An array: a map would allocate, and no adding may fail for memory. A
// table of `setup` would be no plainer: a sample passes over every place.
pub struct Bands<K> {
    pub places: [Option<Band<K>>; 7],
}

// By hand, with what a derive would say, so that an edit can show that a copy is the same band.
impl<K: Clone> Clone for Band<K> {
    ghost is_clone = { λ x y. K.is_clone x.lower y.lower × K.is_clone x.upper y.upper × (y.zone ≡ x.zone) };

    ghost is_infallible = { λ x. K.is_infallible x.lower × K.is_infallible x.upper };

    fn clone(&self) -> Result<Band<K>, AllocError> {
        Ok(Band {
            lower: self.lower.clone()?,
            upper: self.upper.clone()?,
            zone: self.zone,
        })
    }
}

impl<K: Copy> Copy for Band<K> {}

// Place by place: of a whole array of any kind nobody knows that it fits in memory, which the array's own `clone` asks for.
impl<K: Clone> Clone for Bands<K> {
    ghost is_clone = { λ x y. AllZip ⟦<Option<Band<K>> as Clone>⟧.is_clone x.places y.places };

    ghost is_infallible = { λ x. All ⟦<Option<Band<K>> as Clone>⟧.is_infallible x.places };

    fn clone(&self) -> Result<Bands<K>, AllocError> {
        let [first, second, third, fourth, fifth, sixth, seventh] = &self.places;
        Ok(Bands {
            places: [
                first.clone()?,
                second.clone()?,
                third.clone()?,
                fourth.clone()?,
                fifth.clone()?,
                sixth.clone()?,
                seventh.clone()?,
            ],
        })
    }
}

impl<K: Copy> Copy for Bands<K> {}

// Any bands, as a caller has them. They need not be new, nor made by `add_band`.
impl<K> From<[Option<Band<K>>; 7]> for Bands<K> {
    ghost from_gives = { λ places bands. bands.places ≡ places };

    fn from(places: [Option<Band<K>>; 7]) -> Bands<K> {
        Bands { places }
    }
}
