// Turns over lent memory: one after another, until the search ends or the allowance is spent.
ghost use Rattle.std.specs.Prelude.{◌≡◌};
ghost use Rattle.planner.specs.Reached.{Running, Runs};
ghost use Rattle.planner.specs.Going.{is_due};

use crate::{Standing, advance};
use admission::Call;
use search::Step;
use workspace::Workspace;

// Whether a turn is due.
#[tactic(auto, using(crate::proofs::Rerun::other_step))]
fn is_due(step: Step) -> bool
    ensures { result ≡ is_due step }
{
    matches!(step, Step::Due(_, _))
}

// Turns while one is due, at most as many as the budget.
pub fn run(
    call: &Call<'_>,
    space: &mut Workspace<'_>,
    route: &mut [u32],
    log: &mut [u32],
    s: Standing,
) -> Standing
    requires { Running call.now space.old route.old log.old s }
    ensures { Runs call.now space.old route.old log.old call.now.budget s result space.new route.new log.new }
{
    let mut stand = s;
    for _ in 0..call.budget {
        if !is_due(stand.step) {
            break;
        }
        stand = advance::advance(call, space, route, log, stand);
    }
    stand
}
