// Writers of one value as an item at a place. Each answers the place after the item; where there is no room, none,
// and no byte changes.
ghost use Rattle.std.specs.Prelude.{◌≡◌};
ghost use Rattle.items.specs.Encode.{item_end, item_written};

use items::write::write_item;
use secs::format::Format;
use secs::scalar::{Element, Scalar};
use std::convert::AsSlice;

// An item of one number. Of an F4, bits that are no number are refused.
pub fn write_value<S: Scalar>(out: &mut [u8], at: usize, value: S::Value) -> Option<usize>
    ensures place { result ≡ item_end out.old at S.FORMAT (S.Value.bytes_of value) }
    ensures after { out.new ≡ item_written out.old at S.FORMAT (S.Value.bytes_of value) }
{
    write_item(out, at, S::FORMAT, value.to_bytes().as_slice())
}

// A with a text.
pub fn write_ascii(out: &mut [u8], at: usize, text: &[u8]) -> Option<usize>
    ensures place { result ≡ item_end out.old at Format.Ascii text.now }
    ensures after { out.new ≡ item_written out.old at Format.Ascii text.now }
{
    write_item(out, at, Format::Ascii, text)
}
