ghost use Rattle.std.specs.Prelude.{◌≡◌, ℕ, List, [], length, if◌then◌else◌, Some, None, Option, nat_le};
ghost use Rattle.lines.specs.Journals.{lines_of, noted, on_ledger};

use crate::journal::Journal;
use crate::line::{Letter, Line};

impl Journal {
    pub fn new() -> Journal
        ensures { lines_of result ≡ [] }
    {
        Journal {
            lines: [Line::default(); 32],
            used: 0,
        }
    }

    // Adds a line where there is room for one.
    // By index: of a place that get_mut lends out of an array, no proof knows what comes back.
    pub fn note(&mut self, letter: Letter, number: u32)
        ensures { lines_of self.new ≡ noted letter number (lines_of self.old) }
    {
        if self.used < self.lines.len() {
            self.lines[self.used] = Line { letter, number };
            self.used += 1;
        }
    }

    // Copies the lines to the front of a ledger and tells how many; a ledger that is too short stays as it is.
    pub fn copy_to(&self, ledger: &mut [Line]) -> Option<usize>
        ensures answer { result ≡ (if nat_le (length (lines_of self.now)) (length ledger.old) then Some (length (lines_of self.now)) else None) }
        ensures after { ledger.new ≡ (if nat_le (length (lines_of self.now)) (length ledger.old) then on_ledger (lines_of self.now) ledger.old else ledger.old) }
    {
        let lines = &self.lines[..self.used];
        if ledger.len() < lines.len() {
            return None;
        }
        ledger[..lines.len()].copy_from_slice(lines);
        Some(lines.len())
    }
}
