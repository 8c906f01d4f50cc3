// One turn over lent memory, and step 1 after it.
ghost use Rattle.planner.specs.Reached.{Advancing, Advances};

use crate::{Standing, rounds};
use admission::Call;
use search::Step;
use workspace::Workspace;

// Where a turn is due, that turn, and step 1 after it.
pub fn advance(
    call: &Call<'_>,
    space: &mut Workspace<'_>,
    route: &mut [u32],
    log: &mut [u32],
    s: Standing,
) -> Standing
    requires { Advancing call.now space.old route.old log.old s }
    ensures { Advances call.now space.old route.old log.old s result space.new route.new log.new }
{
    let Step::Due(m, a) = s.step else {
        return s;
    };
    let p = s.progress;
    let taken = call.taken();
    let f = schedule::factors(taken, p.rounds);
    turn::turn(
        space,
        log,
        call.guides,
        call.barred,
        f,
        m,
        a,
        p.turn,
        p.expansions,
    );
    let next = progress::after_turn(call.guide_count, p);
    let left = schedule::rounds(taken) - next.rounds;
    rounds::settle(call, space, route, left, next)
}
