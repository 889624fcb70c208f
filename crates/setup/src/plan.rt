ghost use Rattle.std.specs.Prelude.{◌≡◌};
ghost use Rattle.setup.specs.Plans.{blank_plan, alarm_answer, with_alarm, variable_answer, with_variable, band_added, band_answer_of, with_band_of};
ghost use Rattle.setup.specs.Tables.{entry_at};

use crate::refusal::{Refusal, answer};
use crate::table::Table;
use zone::places::BandRefusal;
use zone::variable::{Bounds, Kind, Variable};

// An alarm: its category, whether its reports are enabled, and whether it is set.
#[derive(Clone, Copy, PartialEq, Eq, Debug)]
pub struct Alarm {
    pub category: u8,
    pub enabled: bool,
    pub set: bool,
}

// The alarms and variables that an equipment is to have.
#[derive(Drop)]
pub struct Setup {
    pub alarms: Table<Alarm>,
    pub variables: Table<Variable>,
}

impl Setup {
    pub fn new() -> Setup
        ensures { result ≡ blank_plan }
    {
        Setup {
            alarms: Table::new(),
            variables: Table::new(),
        }
    }

    // Adds an alarm, clear and enabled. Answers code and detail.
    pub fn add_alarm(&mut self, number: u32, category: u32) -> (u8, usize)
        ensures answer { result ≡ alarm_answer number category self.old }
        ensures after { self.new ≡ with_alarm number category self.old }
    {
        if category > 127 {
            return answer(Err(Refusal::Entry {
                number,
                fault: BandRefusal::Number,
            }));
        }
        let alarm = Alarm {
            category: category as u8,
            enabled: true,
            set: false,
        };
        answer(self.alarms.add(number, alarm))
    }

    // Adds a variable without bands. Answers code and detail.
    pub fn add_variable(&mut self, number: u32, kind: Kind) -> (u8, usize)
        ensures answer { result ≡ variable_answer number self.old }
        ensures after { self.new ≡ with_variable number kind self.old }
    {
        answer(self.variables.add(number, Variable::new(kind)))
    }

    // A band of a variable that may be unknown.
    fn band(&mut self, variable: u32, number: u32, bounds: Bounds) -> Result<(), BandRefusal>
        ensures answer { result ≡ band_added number bounds (entry_at self.old.variables.entries variable) }
        ensures after { self.new ≡ with_band_of variable number bounds self.old }
    {
        let mut entry = self.variables.get(variable).ok_or(BandRefusal::Number)?;
        entry.add_band(number, bounds)?;
        self.variables.set(variable, entry);
        Ok(())
    }

    // Adds a band of a variable, in NO ZONE. Answers code and detail.
    pub fn add_band(&mut self, variable: u32, number: u32, bounds: Bounds) -> (u8, usize)
        ensures answer { result ≡ band_answer_of variable number bounds self.old }
        ensures after { self.new ≡ with_band_of variable number bounds self.old }
    {
        let added = self.band(variable, number, bounds);
        answer(added.map_err(|fault| Refusal::Entry { number, fault }))
    }
}
