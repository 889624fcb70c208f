// The item writer.
ghost use Rattle.std.specs.Prelude.{◌≡◌, ℕ, ◌+◌, ◌++◌, length, if◌then◌else◌, nat_le};
ghost use Rattle.octets.specs.Places.{placed};
ghost use Rattle.items.specs.Encode.{item_bytes, fits_at, place_after, list_end, list_written, item_end, item_written};
ghost use Rattle.items.specs.Laws.{ListBack, ItemBack};

use octets::copy_at;
use secs::elements::check_content;
use secs::format::Format;

// The greatest length of an item: three length bytes.
pub const LONGEST: usize = 16_777_215;

// Buffer and place stay two parameters in each writer: the next one takes both on. The length bytes are quotients and
// remainders, as the definition has them.

// Writes the head and the content of an item at `at` and answers the place after them. Where there is no room, nothing
// changes.
fn write_both(out: &mut [u8], at: usize, head: &[u8], content: &[u8]) -> Option<usize>
    ensures place { result ≡ place_after (nat_le (at + length (head.now ++ content.now)) (length out.old)) at (head.now ++ content.now) }
    ensures after { out.new ≡ (if nat_le (at + length (head.now ++ content.now)) (length out.old) then placed out.old at (head.now ++ content.now) else out.old) }
{
    let room = out.len().checked_sub(at)?.checked_sub(head.len())?;
    if content.len() > room {
        return None;
    }
    copy_at(out, at, head);
    copy_at(out, at + head.len(), content);
    Some(at + head.len() + content.len())
}

// Writes an item at `at` and answers the place after it. Where it is too long or there is no room, nothing changes.
fn write_parts(
    out: &mut [u8],
    at: usize,
    format: Format,
    len: usize,
    content: &[u8],
) -> Option<usize>
    ensures place { result ≡ place_after (fits_at out.old at len (item_bytes format len content.now)) at (item_bytes format len content.now) }
    ensures after { out.new ≡ (if fits_at out.old at len (item_bytes format len content.now) then placed out.old at (item_bytes format len content.now) else out.old) }
{
    let code = format.code() * 4;
    let low = (len % 256) as u8;
    match len {
        0..256 => write_both(out, at, &[code + 1, low], content),
        256..65_536 => write_both(out, at, &[code + 2, (len / 256) as u8, low], content),
        65_536..=LONGEST => write_both(
            out,
            at,
            &[code + 3, (len / 65_536) as u8, (len / 256 % 256) as u8, low],
            content,
        ),
        _ => None,
    }
}

// Writes the beginning of a list of `count` items at `at`, and answers the place of its first item.
pub fn write_list(out: &mut [u8], at: usize, count: usize) -> Option<usize>
    ensures place { result ≡ list_end out.old at count }
    ensures after { out.new ≡ list_written out.old at count }
    ensures back { ListBack out.new at count result }
{
    write_parts(out, at, Format::List, count, &[])
}

// Writes an item of a format other than a list at `at`, and answers the place after it. A content that the reader
// would find at fault is not written.
pub fn write_item(out: &mut [u8], at: usize, format: Format, content: &[u8]) -> Option<usize>
    ensures place { result ≡ item_end out.old at format content.now }
    ensures after { out.new ≡ item_written out.old at format content.now }
    ensures back { ItemBack out.new at format content.now result }
{
    if format == Format::List {
        return None;
    }
    check_content(format, content).ok()?;
    write_parts(out, at, format, content.len(), content)
}
