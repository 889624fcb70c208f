// The items of a body, lists with their items in them.
ghost use Rattle.std.specs.Prelude.{◌≡◌, ◌++◌, IfOk, string_bytes, OnOk};
ghost use Rattle.sml.specs.Nested.{items_shown};

use crate::pieces::{push_fault, push_open, push_value};
use items::read::read_item;
use secs::format::Format;
use std::alloc::AllocError;

// Adds `count` items from `at` on, and answers the place after them; none where an item cannot be read, or lists are
// nested deeper than `depth`.
pub(crate) fn push_items(
    text: &mut String,
    frame: &[u8],
    at: usize,
    count: usize,
    depth: u8,
) -> Result<Option<usize>, AllocError>
    ensures bytes { OnOk result (string_bytes text.new ≡ string_bytes text.old ++ (items_shown depth frame.now count at).text) }
    ensures place { IfOk result (λ next. next ≡ (items_shown depth frame.now count at).next) }
{
    if depth == 0 {
        text.push_str(" ...")?;
        return Ok(None);
    }
    let mut place = at;
    for _turn in 0..count {
        let Ok(item) = read_item(frame, place) else {
            push_fault(text, place)?;
            return Ok(None);
        };
        if item.format == Format::List {
            push_open(text, item.length)?;
            let Some(next) = push_items(text, frame, item.next, item.length, depth - 1)? else {
                return Ok(None);
            };
            text.push_str(">")?;
            place = next;
        } else {
            push_value(text, item.format, item.content)?;
            place = item.next;
        }
    }
    Ok(Some(place))
}
