// The answer: the record of the search in hand, and the incumbent in route memory, as figures.
ghost use Rattle.std.specs.Prelude.{◌≡◌, ◌<◌};
ghost use Rattle.planner.specs.Finished.{summary_in, cut_in, Figured, Finishing, Finishes};

use crate::Standing;
use graph::Size;
use search::{Answer, Progress, Step, Summary};

// The figures of the incumbent, where a round is finished: the bound is that of the last one.
#[tactic(auto, using(crate::proofs::Finishing::figures_are))]
fn summary(route: &[u32], schedule: &[u32], z: Size, p: Progress) -> Summary
    requires { Figured z p schedule.now route.now × (0 < p.rounds) }
    ensures { result ≡ summary_in z p schedule.now route.now }
{
    let length = route::route_length(route, z.vertices);
    let f = schedule::factors(schedule, p.rounds - 1);
    let bound = f.w1 * f.w2;
    Summary {
        cost: p.cost,
        length,
        rounds: p.rounds,
        expansions: p.expansions,
        bound,
    }
}

// The budget ended a round: the first, or a later one.
#[tactic(auto, unfolding(crate::specs::Finished::cut_in))]
fn cut_short(route: &[u32], schedule: &[u32], z: Size, p: Progress) -> Answer
    requires { Figured z p schedule.now route.now }
    ensures { result ≡ cut_in z p schedule.now route.now }
{
    if p.rounds == 0 {
        return Answer::Unfinished(p.expansions);
    }
    Answer::Route(summary(route, schedule, z, p))
}

// What the call answers, where the search ends.
pub fn finish(route: &[u32], schedule: &[u32], z: Size, s: Standing) -> Answer
    requires { Finishing z s schedule.now route.now }
    ensures { Finishes z s schedule.now route.now result }
{
    let step = s.step;
    let p = s.progress;
    match step {
        Step::Stuck => Answer::NoRoute(p.expansions),
        Step::Finished => Answer::Route(summary(route, schedule, z, p)),
        Step::Due(_, _) => cut_short(route, schedule, z, p),
    }
}
