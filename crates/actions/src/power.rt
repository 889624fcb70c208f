ghost use Rattle.std.specs.Prelude.{◌≡◌};
ghost use Rattle.actions.specs.Powers.{halted, powered};
ghost use Rattle.rules.specs.Views.{view};
ghost use Rattle.rules.specs.declared.state.Effects.{Effects as Pages};

use rules::state::{Core, Effects};
use spooling::state::Unload;
use states::control::Control;
use states::link::Link;
use store::Store;

// A transmit stops; the rules' `stop_transmit` also reports it, which power does not.
fn halt<Q: Store, S: Store>(core: &mut Core<Q, S>)
    ensures { (e : Pages) → view Q.Store S.Store core.new e ≡ halted (view Q.Store S.Store core.old e) }
{
    if core.reports.spooling.unload == Unload::Transmit {
        core.reports.spooling.unload = Unload::NoOutput;
    }
}

// Power goes and comes back: what was open closes, the queue is lost, and spool, counts, alarms and zones are kept.
#[tactic(auto, unfolding(crate::specs::Powers::powered))]
pub fn power<Q: Store, S: Store>(core: &mut Core<Q, S>, effects: &mut Effects)
    ensures { view Q.Store S.Store core.new effects.new ≡ powered (view Q.Store S.Store core.old effects.old) }
{
    core.close_transactions();
    halt(core);
    core.reports.drop_queue(&mut effects.journal);
    core.state.link = Link::Disabled;
    core.state.control = Control::from(core.state.settings.fallback);
}
