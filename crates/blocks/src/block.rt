// One block: the 512 bytes of a report (specs/Layout.antt).
ghost use Rattle.std.specs.Prelude.{◌≡◌, ℕ, ◌+◌, ◌%◌, ◌<◌, ◌≤◌, true, length, sum};
ghost use Rattle.octets.specs.Big.{num2};
ghost use Rattle.store.specs.Lent.{report_of};
ghost use Rattle.store.specs.Reports.{body_limit};
ghost use Rattle.blocks.specs.Layout.{all_zero, head_of, block_of, number_in, written, report_in};

use octets::copy_at;
use store::report::{BODY_LIMIT, Report};

// How many bytes a block has.
pub(crate) const BLOCK: usize = 512;

// Where the body stands, after the head.
const BODY_AT: usize = 8;

// Where the check stands, at the end.
const CHECK_AT: usize = 510;

// The sum of the bytes, modulo 65,536.
fn check_of(bytes: &[u8]) -> u16
    ensures { result ≡ sum bytes.now % 65536 }
{
    bytes
        .iter()
        .fold(0u16, |check, byte| check.wrapping_add(u16::from(*byte)))
}

// Whether every byte is 0.
pub(crate) fn all_zero(bytes: &[u8]) -> bool
    ensures { result ≡ all_zero bytes.now }
{
    bytes.iter().all(|byte| *byte == 0)
}

// The first bytes of the block of a report.
fn head_of(report: Report<'_>) -> [u8; BODY_AT]
    requires { length report.body.now ≤ body_limit }
    ensures { result ≡ head_of report.entry.number report.entry.stream report.entry.function (length report.entry.body.now) }
{
    let [n0, n1, n2, n3] = report.number.to_be_bytes();
    let [l0, l1] = (report.body.len() as u16).to_be_bytes();
    [n0, n1, n2, n3, report.stream, report.function, l0, l1]
}

// The block of a report.
pub(crate) fn block_of(report: Report<'_>) -> [u8; BLOCK]
    requires { length report.body.now ≤ body_limit }
    ensures { result ≡ block_of (report_of report.entry) }
{
    let mut block = [0; BLOCK];
    copy_at(&mut block, 0, &head_of(report));
    copy_at(&mut block, BODY_AT, report.body);
    let check = check_of(&block[..CHECK_AT]);
    copy_at(&mut block, CHECK_AT, &check.to_be_bytes());
    block
}

// The number in a block; a free one has 0.
pub(crate) fn number_in(block: &[u8; BLOCK]) -> u32
    ensures { result ≡ number_in block.now }
{
    u32::from_be_bytes([block[0], block[1], block[2], block[3]])
}

// The number that two bytes are.
fn pair_at(block: &[u8; BLOCK], at: usize) -> u16
    requires { at + 1 < 512 }
    ensures { result ≡ num2 block.now at }
{
    u16::from_be_bytes([block[at], block[at + 1]])
}

// Whether the bytes are those of some report that can be put.
pub(crate) fn is_written(block: &[u8; BLOCK]) -> bool
    ensures { result ≡ written block.now }
{
    let length = usize::from(pair_at(block, 6));
    number_in(block) != 0
        && length <= BODY_LIMIT
        && pair_at(block, CHECK_AT) == check_of(&block[..CHECK_AT])
        && all_zero(&block[BODY_AT + length..CHECK_AT])
}

// The report that a written block holds.
pub(crate) fn report_in(block: &[u8; BLOCK]) -> Report<'_>
    requires { written block.now ≡ true }
    ensures value { report_of result ≡ report_in block.now }
    ensures short { length result.body.now ≤ body_limit }
{
    let length = usize::from(pair_at(block, 6));
    Report {
        number: number_in(block),
        stream: block[4],
        function: block[5],
        body: &block[BODY_AT..BODY_AT + length],
    }
}
