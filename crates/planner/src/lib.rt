// The planner call: refused before anything is written, or the rounds over lent memory.
#![tactic(auto)]

pub mod advance;
mod answers;
pub mod begin;
pub mod finish;
mod rounds;
mod running;

ghost use Rattle.planner.specs.Plan.{memory_of, call_with, Planned};

use admission::{Call, Lengths};
use graph::refusal::Refusal;
use search::{Answer, Progress, Step};

// Where the search stands between two turns: what step 1 said, and the record of the search in hand.
#[derive(Clone, Copy)]
pub struct Standing {
    pub step: Step,
    pub progress: Progress,
}

// Plans a route: the answer to a call, or its refusal, which leaves all memory as it was. Route, log, work and wide
// work memory are lent; that they are four is the C interface's.
pub fn plan(
    call: &Call<'_>,
    route: &mut [u32],
    log: &mut [u32],
    work: &mut [u32],
    wide: &mut [u64],
) -> Result<Answer, Refusal>
    ensures { Planned (call_with call.now (memory_of route.old log.old work.old wide.old)) result (memory_of route.new log.new work.new wide.new) }
{
    let lengths = Lengths {
        route: route.len(),
        work: work.len(),
        wide: wide.len(),
    };
    let (size, at) = admission::decide(call, lengths)?;
    Ok(answers::answer(call, size, at, route, log, work, wide))
}
