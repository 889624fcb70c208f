// The formats of items, each with its code and the bytes of one element. The length of a list counts items.
ghost use Rattle.std.specs.Prelude.{◌≡◌, ◌<◌, Some};
ghost use Rattle.secs.specs.Formats.{code_of, width_of, name_of, format_of, decoded, table, FoundByCode, CodeFound};

use crate::item::Fault;
use std::fmt;

#[derive(Clone, Copy, PartialEq, Eq, Debug)]
pub enum Format {
    List,
    Binary,
    Ascii,
    U1,
    I4,
    F4,
    U4,
}

// Code and width, in the order of `Format`.
pub const FORMATS: [(u8, u8); 7] = [(0, 1), (8, 1), (16, 1), (41, 1), (28, 4), (36, 4), (44, 4)];

// The table whole. No two formats share a code, so that the search for a code finds its own format.
pub fn formats() -> [(u8, u8); 7]
    ensures whole { result ≡ table }
    ensures found { FoundByCode }
    ensures own { CodeFound }
{
    FORMATS
}

impl Format {
    // The formats in the order of the table.
    const ALL: [Format; 7] = [
        Format::List,
        Format::Binary,
        Format::Ascii,
        Format::U1,
        Format::I4,
        Format::F4,
        Format::U4,
    ];

    // The format code, six bits. By name, as `width` is: a From would not say which of the two it gives.
    pub fn code(self) -> u8
        ensures value { result ≡ code_of self }
        ensures small { result < 64 }
    {
        FORMATS[self as usize].0
    }

    // The format of a code, by a search of the table in its order; `ALL` names the rows, since the table holds numbers alone.
    fn from_code(code: u8) -> Option<Format>
        ensures { result ≡ format_of code }
    {
        let place = FORMATS.iter().position(|(own, _)| *own == code)?;
        Format::ALL.get(place).copied()
    }

    // How many bytes an element takes.
    pub fn width(self) -> u8
        ensures value { result ≡ width_of self }
        ensures some { 0 < result }
    {
        FORMATS[self as usize].1
    }
}

// The format of a code.
impl TryFrom<u8> for Format {
    type Error = Fault;

    ghost try_from_gives = { λ code r. r ≡ decoded code };

    fn try_from(code: u8) -> Result<Format, Fault> {
        Format::from_code(code).ok_or(Fault::UnknownFormat)
    }
}

// The name that SML gives it.
impl fmt::Display for Format {
    ghost output = { λ format. Some (name_of format) };

    fn fmt<W: fmt::Write>(&self, f: &mut fmt::Formatter<W>) -> fmt::Result {
        f.write_str(match self {
            Format::List => "L",
            Format::Binary => "B",
            Format::Ascii => "A",
            Format::U1 => "U1",
            Format::I4 => "I4",
            Format::F4 => "F4",
            Format::U4 => "U4",
        })
    }
}
