ghost use Rattle.std.specs.Prelude.{◌≡◌};
ghost use Rattle.actions.specs.Samples.{sampled};
ghost use Rattle.rules.specs.Views.{view};
ghost use Rattle.setup.specs.Refusals.{answer_of};

use rules::event::Event;
use rules::state::{Core, Effects, Next};
use setup::refusal::Refusal;
use store::Store;
use zone::variable::Sample;

// A sample of a variable. A refusal changes nothing.
#[tactic(auto, unfolding(crate::specs::Samples::sampled))]
pub fn take_sample<Q: Store, S: Store>(
    core: &mut Core<Q, S>,
    next: Next,
    number: u32,
    sample: Sample,
    effects: &mut Effects,
) -> Result<(), Refusal>
    ensures answer { answer_of result ≡ ((sampled next number sample (view Q.Store S.Store core.old effects.old)).code, (sampled next number sample (view Q.Store S.Store core.old effects.old)).detail) }
    ensures after { view Q.Store S.Store core.new effects.new ≡ (sampled next number sample (view Q.Store S.Store core.old effects.old)).after }
{
    let variables = &mut core.state.setup.variables;
    let mut variable = variables.get(number).ok_or(Refusal::Unknown { number })?;
    let moved = variable.sample(sample).map_err(|fault| Refusal::Sample {
        variable: number,
        fault,
    })?;
    variables.set(number, variable);
    if moved {
        core.report_event(next, Event::ZoneMoved(number as u8), effects);
    }
    Ok(())
}
