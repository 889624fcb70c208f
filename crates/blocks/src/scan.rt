// Scans over blocks. A free block has number 0, and a used one another. The chain that passes over the used ones stands in
// each scan: a function that answered it would have to name its closures' types.
ghost use Rattle.std.specs.Prelude.{◌≡◌, min, max, length, position, ◌==◌};
ghost use Rattle.std.specs.List.{reduce};
ghost use Rattle.blocks.specs.Layout.{number_in};
ghost use Rattle.blocks.specs.Blocks.{numbers, intact, has_number, distinct, capacity_of};

use crate::block::{BLOCK, all_zero, is_written, number_in};

// The place of the first block that has the number.
pub(crate) fn place_of(blocks: &[[u8; BLOCK]], number: u32) -> Option<usize>
    ensures { result ≡ position (λ b. number_in b == number) blocks.now }
{
    blocks.iter().position(|block| number_in(block) == number)
}

// The lowest number of a used block.
pub(crate) fn lowest_number(blocks: &[[u8; BLOCK]]) -> Option<u32>
    ensures { result ≡ reduce min (numbers blocks.now) }
{
    blocks
        .iter()
        .map(number_in)
        .filter(|number| *number != 0)
        .min()
}

// The highest number of a used block.
pub(crate) fn highest_number(blocks: &[[u8; BLOCK]]) -> Option<u32>
    ensures { result ≡ reduce max (numbers blocks.now) }
{
    blocks
        .iter()
        .map(number_in)
        .filter(|number| *number != 0)
        .max()
}

// How many blocks are used.
pub(crate) fn used_count(blocks: &[[u8; BLOCK]]) -> usize
    ensures { result ≡ length (numbers blocks.now) }
{
    blocks
        .iter()
        .map(number_in)
        .filter(|number| *number != 0)
        .count()
}

// Whether every block is free or one that a put writes.
#[tactic(auto, unfolding(crate::specs::Blocks::intact))]
fn is_intact(blocks: &[[u8; BLOCK]]) -> bool
    ensures { result ≡ intact blocks.now }
{
    blocks
        .iter()
        .all(|block| all_zero(block) || is_written(block))
}

// Whether some block has the number.
#[tactic(auto, unfolding(crate::specs::Blocks::has_number))]
fn has_number(blocks: &[[u8; BLOCK]], number: u32) -> bool
    ensures { result ≡ has_number number blocks.now }
{
    blocks.iter().any(|block| number_in(block) == number)
}

// Whether no two used blocks share a number.
#[tactic(auto, unfolding(crate::specs::Blocks::distinct))]
fn is_distinct(blocks: &[[u8; BLOCK]]) -> bool
    ensures { result ≡ distinct blocks.now }
{
    let mut rest = blocks;
    while let Some((block, later)) = rest.split_first() {
        if !all_zero(block) && has_number(later, number_in(block)) {
            return false;
        }
        rest = later;
    }
    true
}

// How many blocks a store over the bytes has.
#[tactic(auto, using(crate::proofs::Cutting::chunks_are), unfolding(crate::specs::Blocks::capacity_of))]
pub(crate) fn sound_blocks(bytes: &[u8]) -> usize
    ensures { result ≡ capacity_of bytes.now }
{
    let (blocks, _) = bytes.as_chunks::<BLOCK>();
    if is_intact(blocks) && is_distinct(blocks) {
        blocks.len()
    } else {
        0
    }
}
