// Blocks written out by hand, and puts of small reports.
use blocks::block_store::BlockStore;
use std::alloc::{AllocError, Global};
use store::Store;
use store::answers::answer_number;
use store::report::Report;

// The block with its check, whatever stands before that.
pub(crate) fn sealed(mut block: [u8; 512]) -> [u8; 512] {
    let check = block
        .iter()
        .take(510)
        .fold(0u16, |check, byte| check.wrapping_add(u16::from(*byte)));
    block[510..].copy_from_slice(&check.to_be_bytes());
    block
}

// The block of an S6,F11 report with this number and a body of three bytes, one of them the number.
pub(crate) fn block(number: u8) -> [u8; 512] {
    let mut block = [0; 512];
    block[3] = number;
    block[4] = 6;
    block[5] = 11;
    block[7] = 3;
    block[8] = 0xa5;
    block[9] = number;
    block[10] = 0x5a;
    sealed(block)
}

// Two blocks, one after the other.
pub(crate) fn pair(
    heap: Global,
    first: [u8; 512],
    second: [u8; 512],
) -> Result<Vec<u8>, AllocError> {
    [first, second].as_flattened().to_vec(heap)
}

// The number that a put of an S6,F11 report answers.
pub(crate) fn put(store: &mut BlockStore, number: u32, body: &[u8]) -> u8 {
    let report = Report {
        number,
        stream: 6,
        function: 11,
        body,
    };
    answer_number(store.put(report))
}
