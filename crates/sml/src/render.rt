// A whole frame as text.
ghost use Rattle.std.specs.Prelude.{◌≡◌, IfOk, string_bytes};
ghost use Rattle.sml.specs.Nested.{frame_text};

use crate::body::push_items;
use crate::pieces::push_head;
use frames::frame::split_frame;
use std::alloc::{AllocError, Global};

// The text of a frame as the host gives it: stream and function, W where a reply is wanted, and the body's item.
// Lists are shown up to sixteen in one another.
pub fn render(heap: Global, frame: &[u8]) -> Result<String, AllocError>
    ensures { IfOk result (λ s. string_bytes s ≡ frame_text frame.now) }
{
    let Some(parts) = split_frame(frame) else {
        return String::from_str(heap, "no frame");
    };
    let mut text = String::new(heap);
    push_head(&mut text, parts.header)?;
    if frame.len() > 10 {
        push_items(&mut text, frame, 10, 1, 16)?;
    }
    Ok(text)
}
