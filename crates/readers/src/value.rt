// Readers of one value from an item at a place. Each gives the value and the place after the item: a caller that reads on
// keeps the two in a struct of its own.
ghost use Rattle.std.specs.Prelude.{◌≡◌, false, length, IfOk};
ghost use Rattle.secs.specs.Elements.{is_list};
ghost use Rattle.readers.specs.Values.{format_at, list_at, value_at, text_at, seen_item, seen_text};

use crate::mismatch::Mismatch;
use items::read::read_item;
use secs::format::Format;
use secs::item::Item;
use secs::scalar::{Element, Scalar};

// The item at `at`, if it has a format.
fn read_format<'a>(frame: &'a [u8], at: usize, format: Format) -> Result<Item<'a>, Mismatch>
    ensures item { seen_item result ≡ format_at frame.now at format }
    ensures same { IfOk result (λ i. i.format ≡ format) }
    ensures long { IfOk result (λ i. is_list format ≡ false → length i.content.now ≡ i.length) }
{
    let item = read_item(frame, at)?;
    if item.format == format {
        Ok(item)
    } else {
        Err(Mismatch::Unexpected)
    }
}

// L of `count` items: the place of the first.
pub fn read_list(frame: &[u8], at: usize, count: usize) -> Result<usize, Mismatch>
    ensures { result ≡ list_at frame.now at count }
{
    let item = read_format(frame, at, Format::List)?;
    if item.length == count {
        Ok(item.next)
    } else {
        Err(Mismatch::Unexpected)
    }
}

// The one number of an item. Of an F4, bits that are no number are a fault of the item.
pub fn read_value<S: Scalar>(frame: &[u8], at: usize) -> Result<(S::Value, usize), Mismatch>
    ensures { result ≡ value_at S.FORMAT S.Value.width S.Value.value_of frame.now at }
{
    let item = read_format(frame, at, S::FORMAT)?;
    let value = S::Value::from_bytes(item.content).ok_or(Mismatch::Unexpected)?;
    Ok((value, item.next))
}

// A with a text of any length, which is a part of the frame.
pub fn read_ascii<'a>(frame: &'a [u8], at: usize) -> Result<(&'a [u8], usize), Mismatch>
    ensures { seen_text result ≡ text_at frame.now at }
{
    let item = read_format(frame, at, Format::Ascii)?;
    Ok((item.content, item.next))
}
