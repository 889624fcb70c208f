// The item reader.
ghost use Rattle.std.specs.Prelude.{◌≡◌, ℕ, ◌≤◌, length, IfOk, if◌then◌else◌, nat_le};
ghost use Rattle.items.specs.Decode.{length_at, content_at, item_at, seen, Within};
ghost use Rattle.items.specs.Laws.{ShortestBack};

use secs::elements::check_content;
use secs::format::Format;
use secs::item::{Fault, Item};

// The length that the first `count` bytes are, where there are so many.
fn read_length(bytes: &[u8], count: u8) -> Option<usize>
    requires { (1 ≤ count) × (count ≤ 3) }
    ensures { result ≡ (if nat_le count (length bytes.now) then Some (length_at count bytes.now 0) else None) }
{
    match (count, bytes) {
        (1, [a, ..]) => Some(usize::from(*a)),
        (2, [a, b, ..]) => Some(usize::from(u16::from_be_bytes([*a, *b]))),
        (3, [a, b, c, ..]) => Some(u32::from_be_bytes([0, *a, *b, *c]) as usize),
        _ => None,
    }
}

// The item of a format and a length whose content begins at `begin`.
fn read_content<'a>(
    frame: &'a [u8],
    format: Format,
    begin: usize,
    len: usize,
) -> Result<Item<'a>, Fault>
    requires { begin ≤ length frame.now }
    ensures item { seen result ≡ content_at frame.now format begin len }
    ensures within { IfOk result (λ i. Within i frame.now) }
{
    if format == Format::List {
        return Ok(Item {
            format,
            begin,
            length: len,
            content: &frame[begin..begin],
            next: begin,
        });
    }
    if frame.len() - begin < len {
        return Err(Fault::PastEnd);
    }
    let content = &frame[begin..begin + len];
    check_content(format, content)?;
    Ok(Item {
        format,
        begin,
        length: len,
        content,
        next: begin + len,
    })
}

// The item that stands at `at`. Its content is a part of the frame.
pub fn read_item<'a>(frame: &'a [u8], at: usize) -> Result<Item<'a>, Fault>
    ensures item { seen result ≡ item_at frame.now at }
    ensures within { IfOk result (λ i. Within i frame.now) }
    ensures shortest { ShortestBack frame.now at result }
{
    let Some([head, rest @ ..]) = frame.get(at..) else {
        return Err(Fault::PastEnd);
    };
    let count = *head % 4;
    if count == 0 {
        return Err(Fault::NoLength);
    }
    let format = Format::try_from(*head / 4)?;
    let len = read_length(rest, count).ok_or(Fault::PastEnd)?;
    read_content(frame, format, at + 1 + usize::from(count), len)
}
