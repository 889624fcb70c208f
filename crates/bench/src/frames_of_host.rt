use frames::header::Header;
use secs::scalar::U1;
use std::alloc::{AllocError, Global};
use values::writers::write_value;

// The bytes of a frame as the host gives it: header and body.
pub fn frame(heap: Global, header: Header, body: &[u8]) -> Result<Vec<u8>, AllocError> {
    let mut bytes = Vec::from_slice(heap, &header.bytes())?;
    bytes.extend_from_slice(body)?;
    Ok(bytes)
}

// S6,F23: the host asks for the spool (0) or for its purge (1).
pub fn unload_frame(heap: Global, header: Header, order: u8) -> Result<Vec<u8>, AllocError> {
    let mut room = [0; 16];
    let body = write_value::<U1>(&mut room, 0, order).and_then(|end| room.get(..end));
    frame(heap, header, body.unwrap_or(&[]))
}

// The header of the host's reply to a frame of ours.
pub fn reply_to(ours: Header) -> Header {
    Header {
        wait: false,
        function: ours.function.wrapping_add(1),
        ..ours
    }
}

// The header of a primary that wants a reply, the host's or ours.
pub fn primary(stream: u8, function: u8, transaction: u32) -> Header {
    Header {
        session: 7,
        wait: true,
        stream,
        function,
        ptype: 0,
        stype: 0,
        transaction,
    }
}
