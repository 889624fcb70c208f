// How a real value is made, and what it is as a number of 32 bits.
ghost use Rattle.std.specs.Prelude.{◌≡◌, Some, to_bits};
ghost use Rattle.std.specs.Float.{binary32};
ghost use Rattle.kinds.specs.Reals.{real_of, real_of_bits};

use crate::real::Real;
use secs::elements::is_nan;

impl Real {
    // The real value of a float, or none where that is not a number: an Option, since there is one way to be none.
    pub fn new(value: f32) -> Option<Real>
        ensures { result ≡ real_of value }
    {
        if value.is_nan() {
            return None;
        }
        Some(Real { value })
    }

    // The real value that 32 bits are, or none where they are a NaN.
    pub(crate) fn from_bits(bits: u32) -> Option<Real>
        ensures { result ≡ real_of_bits bits }
    {
        if is_nan(bits) {
            return None;
        }
        Real::new(f32::from_bits(bits))
    }

    pub(crate) fn to_bits(self) -> u32
        ensures value { result ≡ to_bits binary32 self.value }
        ensures back { real_of_bits result ≡ Some self }
    {
        self.value.to_bits()
    }
}
