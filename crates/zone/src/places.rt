// Bands by number: number n stands at place n - 1.
ghost use Rattle.std.specs.Prelude.{◌≡◌, replicate};
ghost use Rattle.zone.specs.Places.{add_answer, add_after, band_refusal_code, is_free, zone_at};

use crate::band::{Band, Bands};
use crate::rule::Zone;

// Why a band is refused.
#[derive(Clone, Copy, PartialEq, Eq, Debug)]
pub enum BandRefusal {
    // The number is none of a place, or a band has it.
    Number,
    // The bounds make no band of the variable's kind.
    Bounds,
}

impl BandRefusal {
    // By name: u8::from would not say that it is the code of a refusal.
    pub fn code(self) -> u8
        ensures { result ≡ band_refusal_code self }
    {
        match self {
            BandRefusal::Number => 10,
            BandRefusal::Bounds => 11,
        }
    }
}

impl<K: Copy> Bands<K> {
    // No bands.
    pub(crate) fn new() -> Bands<K>
        ensures { result.places ≡ replicate 7 None }
    {
        Bands { places: [None; 7] }
    }

    // Adds a band, or refuses the number first, then the bounds that made no band.
    pub(crate) fn add(
        &mut self,
        number: u32,
        band: Result<Band<K>, BandRefusal>,
    ) -> Result<(), BandRefusal>
        ensures answer { result ≡ add_answer self.old.places number band }
        ensures after { self.new.places ≡ add_after self.old.places number band }
    {
        let place = number.checked_sub(1).ok_or(BandRefusal::Number)? as usize;
        let Some(None) = self.places.get(place) else {
            return Err(BandRefusal::Number);
        };
        self.places[place] = Some(band?);
        Ok(())
    }
}

impl<K> Bands<K> {
    // The zone of a band, or none where there is no band of this number.
    pub(crate) fn zone(&self, number: u32) -> Option<Zone>
        ensures { result ≡ zone_at self.now.places number }
    {
        let place = number.checked_sub(1)?;
        let band = self.places.get(place as usize)?.as_ref()?;
        Some(band.zone)
    }
}
