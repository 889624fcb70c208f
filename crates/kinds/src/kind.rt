// The kinds of value that a variable, a sample and a bound have.
ghost use Rattle.std.specs.Prelude.{◌≡◌, ℕ, Bool, true, false, Some, Option, int_le};
ghost use Rattle.octets.specs.Big.{be4, num4};
ghost use Rattle.secs.specs.Formats.{code_of, width_of};
ghost use Rattle.secs.specs.declared.format.Format.{Format};
ghost use Rattle.secs.specs.declared.format.Format.TheVariants as formats;
ghost use Rattle.kinds.specs.Reals.{real_at_most, real_bits, real_of_bits};
ghost use Rattle.kinds.specs.Wholes.{whole_bits, whole_of_bits, whole_total, whole_transitive};
ghost use Rattle.std.specs.Float.Ieee.Bits.{is_true};
ghost use Rattle.std.specs.Bool.{fails, passes};
ghost use Rattle.std.specs.Float.Order.{le_of_lt, lt_of_not-le, le_trans};

use crate::real::Real;
use secs::format::{FORMATS, Format};
use secs::scalar::Element;

// A kind of value: it names the format of its item, by code and element width, and has an order and 32 bits. The order is this
// one test; PartialOrd would be no plainer: a zone asks for no partial_cmp and no eq, nor for the laws that come with them.
pub trait ValueKind: Sized {
    const CODE: u8;

    const WIDTH: u8;

    ghost format: { Format };

    ghost at_most: { Self → Self → Bool };

    ghost bits: { Self → ℕ };

    ghost of_bits: { ℕ → Option Self };

    // Each kind answers these two by itself: said once here, they would ask every kind for a proof of what its constants are.
    fn format_code() -> u8
        ensures { result ≡ code_of format };

    fn element_width() -> u8
        ensures { result ≡ width_of format };

    fn at_most(&self, other: &Self) -> bool
        ensures { result ≡ at_most self.now other.now };

    // The content of an item that holds this value alone.
    fn to_bytes(&self) -> [u8; 4]
        ensures value { result ≡ be4 (bits self.now) }
        ensures back { of_bits (num4 result 0) ≡ Some self.now };

    // The value of such an item, where its content is one.
    fn from_bytes(bytes: [u8; 4]) -> Option<Self>
        ensures { result ≡ of_bits (num4 bytes 0) };

    ghost total: { (x y : Self) → at_most x y ≡ false → at_most y x ≡ true };

    ghost transitive: { (x y z : Self) → at_most x y ≡ true → at_most y z ≡ true → at_most x z ≡ true };
}

impl ValueKind for i32 {
    const CODE: u8 = FORMATS[Format::I4 as usize].0;

    const WIDTH: u8 = FORMATS[Format::I4 as usize].1;

    ghost format = { formats.I4 };

    ghost at_most = { int_le };

    ghost bits = { whole_bits };

    ghost of_bits = { whole_of_bits };

    ghost total = { whole_total };

    ghost transitive = { whole_transitive };

    fn format_code() -> u8 {
        Self::CODE
    }

    fn element_width() -> u8 {
        Self::WIDTH
    }

    fn at_most(&self, other: &i32) -> bool {
        self <= other
    }

    fn to_bytes(&self) -> [u8; 4] {
        Element::to_bytes(*self)
    }

    fn from_bytes(bytes: [u8; 4]) -> Option<i32> {
        Element::from_bytes(&bytes)
    }
}

impl ValueKind for Real {
    const CODE: u8 = FORMATS[Format::F4 as usize].0;

    const WIDTH: u8 = FORMATS[Format::F4 as usize].1;

    ghost format = { formats.F4 };

    ghost at_most = { real_at_most };

    ghost bits = { real_bits };

    ghost of_bits = { real_of_bits };

    ghost total = { λ x y h.
        is_true _
        (le_of_lt y.value x.value
        (lt_of_not-le x.value y.value (fails _ x.number) (fails _ y.number) (fails _ h))) };

    ghost transitive = { λ x y z h k. is_true _ (le_trans x.value y.value z.value (passes _ h) (passes _ k)) };

    fn format_code() -> u8 {
        Self::CODE
    }

    fn element_width() -> u8 {
        Self::WIDTH
    }

    fn at_most(&self, other: &Real) -> bool {
        self.value <= other.value
    }

    fn to_bytes(&self) -> [u8; 4] {
        self.to_bits().to_be_bytes()
    }

    fn from_bytes(bytes: [u8; 4]) -> Option<Real> {
        Real::from_bits(u32::from_be_bytes(bytes))
    }
}
