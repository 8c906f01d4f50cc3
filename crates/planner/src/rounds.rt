// Rounds over lent memory: a round's end, and step 1 again and again while it finishes a round.
ghost use Rattle.std.specs.Prelude.{cond, map, ltb};
ghost use Rattle.search.specs.Rounds.{reopened};
ghost use Rattle.workspace.specs.Space.{space_vertices, Stores};
ghost use Rattle.planner.specs.Carried.{RoundOver, RoundEnds, Settling, Settles};

use crate::Standing;
use admission::Call;
use search::{Progress, Step};
use workspace::Workspace;

// A round begins after the one that is over, if there is one: `left` rounds were not finished yet.
#[tactic(auto, using(workspace::proofs::Spaces::stores_none))]
fn reopen_next(space: &mut Workspace<'_>, left: u32)
    ensures { Stores (cond (ltb 1 left) (map reopened (space_vertices space.old)) (space_vertices space.old)) space.old space.new }
{
    if 1 < left {
        space.reopen();
    }
}

// A round is finished, one of `left`, and the next begins if there is one.
fn end_round(
    call: &Call<'_>,
    space: &mut Workspace<'_>,
    route: &mut [u32],
    left: u32,
    p: Progress,
) -> Progress
    requires { RoundOver call.now space.old route.old left p }
    ensures { RoundEnds call.now space.old route.old left p result space.new route.new }
{
    let cost = route::keep(space.graph(), route, call.start, call.goal, p);
    reopen_next(space, left);
    progress::after_round(call.guide_count, cost, p)
}

// Step 1, again and again while it finishes a round, where `left` rounds are not finished yet.
pub fn settle(
    call: &Call<'_>,
    space: &mut Workspace<'_>,
    route: &mut [u32],
    left: u32,
    p: Progress,
) -> Standing
    requires { Settling call.now space.old route.old left p }
    ensures { Settles call.now space.old route.old left p result space.new route.new }
{
    let mut p = p;
    for done in 0..left {
        let f = schedule::factors(call.taken(), p.rounds);
        let step = turn::step_one(space.vertices(), call.anchor, f, call.goal);
        let Step::Finished = step else {
            return Standing { step, progress: p };
        };
        p = end_round(call, space, route, left - done, p);
    }
    Standing {
        step: Step::Finished,
        progress: p,
    }
}
