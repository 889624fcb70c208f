// The zone rule and the bands of a variable, once for every kind of value.
ghost use Rattle.std.specs.Prelude.{◌≡◌};
ghost use Rattle.zone.specs.Zones.{band_made, zone_after, band_after, band_moves, place_after, place_moves, bands_after, any_moves};
ghost use Rattle.zone.specs.Laws.{AllSettle, Rises, Falls, Rests, Settles, Alternates};

pub use crate::band::{Band, Bands};
use kinds::kind::ValueKind;

// Where a variable's value last was against a band.
#[derive(Clone, Copy, PartialEq, Eq, Debug)]
pub enum Zone {
    NoZone,
    Above,
    Below,
}

impl<K: ValueKind + Copy> Band<K> {
    // A band in NO ZONE, or none where the lower bound is above the upper one.
    pub fn new(lower: K, upper: K) -> Option<Band<K>>
        ensures { result ≡ band_made K.ValueKind.at_most lower upper }
    {
        if !lower.at_most(&upper) {
            return None;
        }
        Some(Band {
            lower,
            upper,
            zone: Zone::NoZone,
        })
    }
}

impl<K: ValueKind> Band<K> {
    // The zone that a value brings: ABOVE from another zone where it is at least the upper bound, else BELOW from another
    // zone where it is at most the lower one, else the zone as it was.
    fn zone_after(&self, value: &K) -> Zone
        ensures { result ≡ zone_after K.ValueKind.at_most value.now self.now }
    {
        if self.zone != Zone::Above && self.upper.at_most(value) {
            Zone::Above
        } else if self.zone != Zone::Below && value.at_most(&self.lower) {
            Zone::Below
        } else {
            self.zone
        }
    }

    // Takes a sample, and answers whether the zone moved.
    pub fn sample(&mut self, value: &K) -> bool
        ensures moved { result ≡ band_moves K.ValueKind.at_most value.now self.old }
        ensures after { self.new ≡ band_after K.ValueKind.at_most value.now self.old }
        ensures rises { Rises K.ValueKind.at_most value.now self.old self.new }
        ensures falls { Falls K.ValueKind.at_most value.now self.old self.new }
        ensures rests { Rests K.ValueKind.at_most value.now self.old result self.new }
        ensures settles { Settles K.ValueKind.at_most value.now self.new }
        ensures alternates { Alternates K.ValueKind.at_most value.now self.old result }
    {
        let next = self.zone_after(value);
        let moved = next != self.zone;
        self.zone = next;
        moved
    }
}

// The same at a place of the bands, which may be free. A match: what a closure changes behind `as_mut` is not proved.
fn sample_place<K: ValueKind>(place: &mut Option<Band<K>>, value: &K) -> bool
    ensures moved { result ≡ place_moves K.ValueKind.at_most value.now place.old }
    ensures after { place.new ≡ place_after K.ValueKind.at_most value.now place.old }
{
    match place {
        Some(band) => band.sample(value),
        None => false,
    }
}

// The same at every place of some bands.
fn sample_places<K: ValueKind>(places: &mut [Option<Band<K>>], value: &K) -> bool
    ensures moved { result ≡ any_moves K.ValueKind.at_most value.now places.old }
    ensures after { places.new ≡ bands_after K.ValueKind.at_most value.now places.old }
{
    let mut moved = false;
    for place in places.iter_mut() {
        moved |= sample_place(place, value);
    }
    moved
}

// Gives the bands at some places the same sample, and answers whether any moved.
pub fn sample<K: ValueKind>(places: &mut [Option<Band<K>>], value: &K) -> bool
    ensures moved { result ≡ any_moves K.ValueKind.at_most value.now places.old }
    ensures after { places.new ≡ bands_after K.ValueKind.at_most value.now places.old }
    ensures settles { AllSettle K.ValueKind.at_most value.now places.new }
{
    sample_places(places, value)
}

impl<K: ValueKind> Bands<K> {
    // Gives every band of a variable the same sample, and answers whether any moved.
    pub fn sample(&mut self, value: &K) -> bool
        ensures moved { result ≡ any_moves K.ValueKind.at_most value.now self.old.places }
        ensures after { self.new.places ≡ bands_after K.ValueKind.at_most value.now self.old.places }
        ensures settles { AllSettle K.ValueKind.at_most value.now self.new.places }
    {
        sample(&mut self.places, value)
    }
}
