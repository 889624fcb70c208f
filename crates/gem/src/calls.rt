ghost use Rattle.std.specs.Prelude.{◌≤◌, length};
ghost use Rattle.gem.specs.Calls.{Called, Untouched, call_turn, found};
ghost use Rattle.gem.specs.Endings.{Ended};

use crate::equipment::{Call, Equipment};
use crate::fault::answer;
use lines::journal::Journal;
use lines::line::Line;
use rules::state::Effects;
use sending::outbox::Outbox;
use store::Store;
use zone::variable::Sample;

// The eight calls stand by name, with the two buffers that a caller lends, and answer four plain numbers: this is the
// equipment's interface. `call` does what each of them does.
impl<Q: Store, S: Store> Equipment<Q, S> {
    // A frame of the host: header and body.
    pub fn host(
        &mut self,
        frame: &[u8],
        out: &mut [u8],
        ledger: &mut [Line],
    ) -> (u8, usize, usize, usize)
        ensures { Called Q.Store S.Store (Call.Host frame.entry) self.old self.new out.old out.new ledger.old ledger.new result }
    {
        self.call(Call::Host(frame), out, ledger)
    }

    // The operator moves the switch of a number, 1 to 6: ENABLE, DISABLE, ONLINE, OFFLINE, LOCAL, REMOTE.
    pub fn switch(
        &mut self,
        number: u32,
        out: &mut [u8],
        ledger: &mut [Line],
    ) -> (u8, usize, usize, usize)
        ensures { Called Q.Store S.Store (Call.Switch number) self.old self.new out.old out.new ledger.old ledger.new result }
    {
        self.call(Call::Switch(number), out, ledger)
    }

    // The timer of a number expires: 1 the delay, 2 the reply on stream 1, 3 the reply to a report.
    pub fn expiry(
        &mut self,
        number: u32,
        out: &mut [u8],
        ledger: &mut [Line],
    ) -> (u8, usize, usize, usize)
        ensures { Called Q.Store S.Store (Call.Expiry number) self.old self.new out.old out.new ledger.old ledger.new result }
    {
        self.call(Call::Expiry(number), out, ledger)
    }

    // The connection fails.
    pub fn failure(&mut self, out: &mut [u8], ledger: &mut [Line]) -> (u8, usize, usize, usize)
        ensures { Called Q.Store S.Store Call.Failure self.old self.new out.old out.new ledger.old ledger.new result }
    {
        self.call(Call::Failure, out, ledger)
    }

    // A variable is sampled.
    pub fn sample(
        &mut self,
        variable: u32,
        sample: Sample,
        out: &mut [u8],
        ledger: &mut [Line],
    ) -> (u8, usize, usize, usize)
        ensures { Called Q.Store S.Store (Call.Sample variable sample) self.old self.new out.old out.new ledger.old ledger.new result }
    {
        self.call(Call::Sample(variable, sample), out, ledger)
    }

    // An alarm is set or cleared.
    pub fn alarm(
        &mut self,
        number: u32,
        set: bool,
        out: &mut [u8],
        ledger: &mut [Line],
    ) -> (u8, usize, usize, usize)
        ensures { Called Q.Store S.Store (Call.Alarm number set) self.old self.new out.old out.new ledger.old ledger.new result }
    {
        self.call(Call::Alarm(number, set), out, ledger)
    }

    // One step of sending reports.
    pub fn pump(&mut self, out: &mut [u8], ledger: &mut [Line]) -> (u8, usize, usize, usize)
        ensures { Called Q.Store S.Store Call.Pump self.old self.new out.old out.new ledger.old ledger.new result }
    {
        self.call(Call::Pump, out, ledger)
    }

    // Power goes and comes back.
    pub fn power(&mut self, out: &mut [u8], ledger: &mut [Line]) -> (u8, usize, usize, usize)
        ensures { Called Q.Store S.Store Call.Power self.old self.new out.old out.new ledger.old ledger.new result }
    {
        self.call(Call::Power, out, ledger)
    }

    // A call. Answers code, detail, bytes written to the output buffer and lines written to the ledger.
    pub fn call(
        &mut self,
        call: Call<'_>,
        out: &mut [u8],
        ledger: &mut [Line],
    ) -> (u8, usize, usize, usize)
        ensures called { Called Q.Store S.Store call.entry self.old self.new out.old out.new ledger.old ledger.new result }
        ensures ended { Ended call.entry (call_turn self.old.fit (length out.old) (length ledger.old) call.entry (found Q.Store S.Store self.old.core)) (found Q.Store S.Store self.old.core) }
        ensures refused { 1 ≤ result.0 → result.0 ≤ 9 → Untouched Q.Store S.Store self.old.core self.new.core out.old out.new ledger.old ledger.new }
    {
        let mut effects = Effects {
            journal: Journal::new(),
            outbox: Outbox::new(),
        };
        let (code, detail) = answer(self.act(call, out.len(), ledger.len(), &mut effects));
        let bytes = effects.outbox.write_to(out).unwrap_or(0);
        let lines = effects.journal.copy_to(ledger).unwrap_or(0);
        (code, detail, bytes, lines)
    }
}
