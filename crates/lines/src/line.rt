ghost use Rattle.std.specs.Prelude.{◌≡◌, Some};
ghost use Rattle.lines.specs.Letters.{character_of, is_end, line_text};

use std::fmt;

// What became of a report; its character is `character_of` of specs/Letters.antt.
#[derive(Clone, Copy, PartialEq, Eq, Debug, Default)]
pub enum Letter {
    // M: it was made.
    #[default]
    Made,
    // A: the host acknowledged it, sent from the queue.
    Acknowledged,
    // B: the host acknowledged it, sent from the spool.
    SpoolAcknowledged,
    // D: it was dropped.
    Dropped,
    // O: a newer report took its place in a full spool.
    Overwritten,
    // P: it was purged from the spool.
    Purged,
    // T: a full spool turned it away.
    TurnedAway,
}

impl Letter {
    // By name: u8::from would not say that it is the letter's character.
    pub fn character(self) -> u8
        ensures { result ≡ character_of self }
    {
        match self {
            Letter::Made => b'M',
            Letter::Acknowledged => b'A',
            Letter::SpoolAcknowledged => b'B',
            Letter::Dropped => b'D',
            Letter::Overwritten => b'O',
            Letter::Purged => b'P',
            Letter::TurnedAway => b'T',
        }
    }

    // Whether a line of this letter ends its report.
    pub fn ends(self) -> bool
        ensures { result ≡ is_end self }
    {
        !matches!(self, Letter::Made)
    }
}

// One line of the ledger.
#[derive(Clone, Copy, PartialEq, Eq, Debug, Default)]
pub struct Line {
    pub letter: Letter,
    pub number: u32,
}

// As a ledger shows it: the letter's character and the report number.
impl fmt::Display for Line {
    ghost output = { λ line. Some (line_text line) };

    fn fmt<W: fmt::Write>(&self, f: &mut fmt::Formatter<W>) -> fmt::Result {
        let letter = char::from(self.letter.character());
        write!(f, "{letter} {}", self.number)
    }
}
