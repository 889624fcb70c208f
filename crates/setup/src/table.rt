ghost use Rattle.std.specs.Prelude.{◌≡◌, replicate, None};
ghost use Rattle.setup.specs.Tables.{added_to, entry_at, is_free, with_added, with_entry};

use crate::refusal::Refusal;
use zone::places::BandRefusal;

// Entries by their numbers, 1 to 32. An array: a map would allocate, and no adding may fail for memory.
#[derive(Drop)]
pub struct Table<T> {
    entries: [Option<T>; 32],
}

impl<T: Copy> Table<T> {
    pub fn new() -> Table<T>
        ensures { result.entries ≡ replicate 32 None }
    {
        Table {
            entries: [None; 32],
        }
    }

    // The entry of a number, where there is one. There is no get_mut: that an element lent out of an array comes back has no proof yet.
    pub fn get(&self, number: u32) -> Option<T>
        ensures { result ≡ entry_at self.now.entries number }
    {
        let place = number.checked_sub(1)?;
        *self.entries.get(place as usize)?
    }

    // Gives a number another entry, and no other number; one outside 1 to 32 changes nothing.
    pub fn set(&mut self, number: u32, entry: T)
        ensures { self.new.entries ≡ with_entry number entry self.old.entries }
    {
        if !(1..=32).contains(&number) {
            return;
        }
        self.entries[number as usize - 1] = Some(entry);
    }

    // Gives a number its first entry; one outside 1 to 32 or taken already is refused, and changes nothing.
    pub fn add(&mut self, number: u32, entry: T) -> Result<(), Refusal>
        ensures answer { result ≡ added_to self.old.entries number }
        ensures after { self.new.entries ≡ with_added number entry self.old.entries }
    {
        let refusal = Refusal::Entry {
            number,
            fault: BandRefusal::Number,
        };
        let place = number.checked_sub(1).ok_or(refusal)? as usize;
        let Some(None) = self.entries.get(place) else {
            return Err(refusal);
        };
        self.entries[place] = Some(entry);
        Ok(())
    }
}
