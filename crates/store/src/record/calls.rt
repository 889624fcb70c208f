ghost use Rattle.std.specs.Prelude.{◌≡◌, ℕ, ◌-◌, ◌<◌, ◌≤◌, List, [], ◌∷◌, length, drop, replicate, MatchOption};
ghost use Rattle.store.specs.Answers.{Reads};
ghost use Rattle.store.specs.Lent.{report_of};
ghost use Rattle.store.specs.Reports.{body_limit};
ghost use Rattle.store.specs.Rings.{report_in};

use crate::answers::Copied;
use crate::record::Record;
use crate::report::{BODY_LIMIT, Report};
use octets::copy_at;

impl Record {
    // A slot that holds nothing yet.
    pub fn blank() -> Record
        ensures report { report_in result ≡ record { number = 0; stream = 0; function = 0; body = [] } }
        ensures zeros { result.body ≡ replicate body_limit 0 }
    {
        Record {
            number: 0,
            stream: 0,
            function: 0,
            length: 0,
            body: [0; BODY_LIMIT],
        }
    }

    // A slot that holds a report, zeros after its body; nothing where the body is above the limit.
    pub fn new(report: Report<'_>) -> Option<Record>
        ensures report { MatchOption result (body_limit < length report.entry.body.now) (λ s. (length report.entry.body.now ≤ body_limit) × (report_in s ≡ report_of report.entry)) }
        ensures zeros { MatchOption result (body_limit < length report.entry.body.now) (λ s. drop (length report.entry.body.now) s.body ≡ replicate (body_limit - length report.entry.body.now) 0) }
    {
        let mut body = [0; BODY_LIMIT];
        if !copy_at(&mut body, 0, report.body) {
            return None;
        }
        Some(Record {
            number: report.number,
            stream: report.stream,
            function: report.function,
            length: report.body.len(),
            body,
        })
    }

    pub fn number(&self) -> u32
        ensures { result ≡ (report_in self.now).number }
    {
        self.number
    }

    // The report that the slot holds.
    pub fn report(&self) -> Report<'_>
        ensures { report_of result ≡ report_in self.now }
    {
        Report {
            number: self.number,
            stream: self.stream,
            function: self.function,
            body: &self.body[..self.length],
        }
    }

    // Copies the body to the front of `buffer` and tells the rest; nothing where the buffer is below the body limit.
    pub fn copy_out(&self, buffer: &mut [u8]) -> Option<Copied>
        ensures { Reads (report_in self.now ∷ []) result buffer.old buffer.new }
    {
        self.report().copy_out(buffer)
    }
}
