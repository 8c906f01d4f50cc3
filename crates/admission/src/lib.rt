// Whether a planner call is admitted: its refusals, decided before anything is written.
#![tactic(auto)]

pub mod edges;
mod rows;

ghost use Rattle.std.specs.Prelude.{◌≡◌};
ghost use Rattle.search.specs.Call.{or_default};
ghost use Rattle.admission.specs.Admission.{Decided};

use graph::Size;
use graph::refusal::Refusal;

// A planner call, but for the memory that is lent to it. The inadmissible heuristics (guides) stand one after another;
// the schedule is the call's own, empty for the default schedule (house schedule).
#[derive(Clone, Copy)]
pub struct Call<'a> {
    pub bytes: &'a [u8],
    pub start: u32,
    pub goal: u32,
    pub barred: u32,
    pub anchor: &'a [u32],
    pub guides: &'a [u32],
    pub guide_count: u32,
    pub schedule: &'a [u32],
    pub default_schedule: &'a [u32],
    pub budget: u32,
}

impl<'a> Call<'a> {
    // The schedule that the call takes.
    pub fn taken(&self) -> &'a [u32]
        ensures { result.now ≡ or_default self.now.default_schedule.now self.now.schedule.now }
    {
        schedule::or_default(self.schedule, self.default_schedule)
    }
}

// The lengths of lent memory, as far as a call asks for them.
#[derive(Clone, Copy)]
pub struct Lengths {
    pub route: usize,
    pub work: usize,
    pub wide: usize,
}

// The verdict on a planner call: refused for its first fault, those of the plan (1 to 7, 15) before the rows 8
// to 13; or admitted, with V and M and the offset of the plan's first edge.
pub fn decide(call: &Call<'_>, lengths: Lengths) -> Result<(Size, usize), Refusal>
    ensures { Decided call.now lengths result }
{
    let (size, at) = plan_check::header(call.bytes)?;
    let broken = edges::read_edges(call.bytes, size, at, call.anchor)?;
    rows::call_verdict(call, size, at, lengths, broken)
}
