ghost use Rattle.std.specs.Prelude.{◌≡◌, ◌≤◌, List, length};
ghost use Rattle.gem.specs.Calls.{Called};
ghost use Rattle.gem.specs.Runs.{Beginning, Outcome};
ghost use Rattle.gem.specs.declared.equipment.LentCall.{LentCall as Lent};
ghost use Rattle.ledger.specs.Sittings.{Carried, Left, Ran};
ghost use Rattle.spooling.specs.Holdings.{shelf};

use gem::equipment::{Call, Equipment, LentCall};
use lines::line::Line;
use setup::plan::Setup;
use setup::settings::Settings;
use store::Store;

// Carries a run on by one call. Whatever run led to this equipment, the run with this call added leads to it then; from two empty stores
// its ledger is true, and nothing of the call is cut short.
pub fn carry_on<Q: Store, S: Store>(
    equipment: &mut Equipment<Q, S>,
    call: Call<'_>,
    out: &mut [u8],
    ledger: &mut [Line],
) -> (u8, usize, usize, usize)
    ensures called { Called Q.Store S.Store call.entry equipment.old equipment.new out.old out.new ledger.old ledger.new result }
    ensures fits { (result.2 ≤ length out.old) × (result.3 ≤ length ledger.old) }
    ensures carried { (b : Beginning) (calls : List Lent) → Outcome Q.Store S.Store b calls equipment.old.fit equipment.old.core → Carried Q.Store S.Store b calls (record { call = call.entry; out = length out.old; ledger = length ledger.old }) equipment.old.fit equipment.old.core equipment.new.fit equipment.new.core }
{
    equipment.call(call, out, ledger)
}

// Makes a call of a run with buffers of its own, of the sizes that are lent to it. Its lines come to the front of `page`.
fn make_call<Q: Store, S: Store>(
    equipment: &mut Equipment<Q, S>,
    lent: LentCall<'_>,
    page: &mut [Line],
) -> usize
    requires { 32 ≤ length page.old }
    ensures left { Left Q.Store S.Store lent.entry equipment.old.fit equipment.old.core page.old result equipment.new.fit equipment.new.core page.new }
{
    let mut out = [0u8; 512];
    let room = lent.out.min(512);
    let lines = lent.ledger.min(32);
    let (_, _, _, written) = carry_on(equipment, lent.call, &mut out[0..room], &mut page[0..lines]);
    written
}

// Starts an equipment and makes calls, one after another, each with buffers of the sizes that are lent to it. Their lines come one after
// another to the front of `ledger`; a call is made only while 32 lines of it are left. Answers the equipment, how many calls were
// made, and how many lines they left.
pub fn run<Q: Store, S: Store>(
    setup: Setup,
    settings: Settings,
    queue: Q,
    spool: S,
    calls: &[LentCall<'_>],
    ledger: &mut [Line],
) -> (Equipment<Q, S>, usize, usize)
    ensures { Ran Q.Store S.Store (record { setup = setup; settings = settings; queue = shelf Q.Store queue; spool = shelf S.Store spool }) calls.now ledger.old result.1 result.2 result.0.fit result.0.core ledger.new }
{
    let mut equipment = Equipment::start(setup, settings, queue, spool);
    let mut used = 0;
    for (made, lent) in calls.iter().enumerate() {
        if ledger.len() - used < 32 {
            return (equipment, made, used);
        }
        used += make_call(&mut equipment, *lent, &mut ledger[used..]);
    }
    (equipment, calls.len(), used)
}
