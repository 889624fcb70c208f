// Values that stand alone in an item: the numbers by their bytes, and the formats that hold them, each as a type.
ghost use Rattle.std.specs.Prelude.{◌≡◌, ℕ, false, ◌==◌, [], ◌∷◌, List, length, Some, None, IfSome, if◌then◌else◌, slice_index, refl};
ghost use Rattle.std.proofs.Common.{of_z, to_z};
ghost use Rattle.std.specs.Int.{w32};
ghost use Rattle.octets.specs.Big.{be4, num4};
ghost use Rattle.secs.specs.Elements.{is_list};
ghost use Rattle.secs.specs.declared.format.Format.{Format};
ghost use Rattle.secs.specs.declared.format.Format.TheVariants as formats;

use crate::format::Format;
use std::convert::AsSlice;

// A number that is an element of an item.
pub trait Element: Copy {
    type Bytes: AsSlice<u8> + Drop;

    ghost width: { ℕ };

    ghost bytes_of: { Self → List ℕ };

    ghost value_of: { List ℕ → Self };

    fn to_bytes(self) -> Self::Bytes
        ensures bytes { Self.Bytes.items result ≡ bytes_of self }
        ensures wide { length (bytes_of self) ≡ width }
        ensures back { value_of (bytes_of self) ≡ self };

    // The number that these bytes are, where there are as many as it has.
    fn from_bytes(bytes: &[u8]) -> Option<Self>
        ensures value { result ≡ (if length bytes.now == width then Some (value_of bytes.now) else None) }
        ensures back { IfSome result (λ number. bytes_of number ≡ bytes.now) };
}

impl Element for u8 {
    type Bytes = [u8; 1];

    ghost width = { 1 };

    ghost bytes_of = { λ byte. byte ∷ [] };

    ghost value_of = { λ bytes. slice_index bytes 0 };

    fn to_bytes(self) -> [u8; 1] {
        [self]
    }

    fn from_bytes(bytes: &[u8]) -> Option<u8> {
        match *bytes {
            [byte] => Some(byte),
            _ => None,
        }
    }
}

impl Element for u32 {
    type Bytes = [u8; 4];

    ghost width = { 4 };

    ghost bytes_of = { be4 };

    ghost value_of = { λ bytes. num4 bytes 0 };

    fn to_bytes(self) -> [u8; 4] {
        self.to_be_bytes()
    }

    fn from_bytes(bytes: &[u8]) -> Option<u32> {
        match *bytes {
            [a, b, c, d] => Some(u32::from_be_bytes([a, b, c, d])),
            _ => None,
        }
    }
}

// Two's complement.
impl Element for i32 {
    type Bytes = [u8; 4];

    ghost width = { 4 };

    ghost bytes_of = { λ number. be4 (of_z w32 number) };

    ghost value_of = { λ bytes. to_z w32 (num4 bytes 0) };

    fn to_bytes(self) -> [u8; 4] {
        self.cast_unsigned().to_bytes()
    }

    fn from_bytes(bytes: &[u8]) -> Option<i32> {
        u32::from_bytes(bytes).map(|bits| bits.cast_signed())
    }
}

// A format of which an item can hold one number.
pub trait Scalar {
    type Value: Element;

    const FORMAT: Format;

    ghost FORMAT: { Format };

    ghost no_list: { is_list FORMAT ≡ false };
}

pub struct Binary;

impl Scalar for Binary {
    type Value = u8;

    const FORMAT: Format = Format::Binary;

    ghost FORMAT = { formats.Binary };

    ghost no_list = { refl };
}

pub struct U1;

impl Scalar for U1 {
    type Value = u8;

    const FORMAT: Format = Format::U1;

    ghost FORMAT = { formats.U1 };

    ghost no_list = { refl };
}

pub struct U4;

impl Scalar for U4 {
    type Value = u32;

    const FORMAT: Format = Format::U4;

    ghost FORMAT = { formats.U4 };

    ghost no_list = { refl };
}

pub struct I4;

impl Scalar for I4 {
    type Value = i32;

    const FORMAT: Format = Format::I4;

    ghost FORMAT = { formats.I4 };

    ghost no_list = { refl };
}

// The number is given by its 32 bits.
pub struct F4;

impl Scalar for F4 {
    type Value = u32;

    const FORMAT: Format = Format::F4;

    ghost FORMAT = { formats.F4 };

    ghost no_list = { refl };
}
