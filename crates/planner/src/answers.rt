// The answer to a call that is not refused: the search begun, run and handed over.
ghost use Rattle.planner.specs.Plan.{memory_of, call_with};
ghost use Rattle.planner.specs.Planning.{Admission, Answers};

use crate::{begin, finish, running};
use admission::Call;
use graph::Size;
use search::Answer;
use workspace::Workspace;

// The answer to a call that is not refused, whose plan has its first edge at an offset: the search begins, makes
// its turns, and is handed over. The four lent memories are the C interface's, and work and wide are one struct as soon as
// a graph is in them.
pub fn answer(
    call: &Call<'_>,
    size: Size,
    at: usize,
    route: &mut [u32],
    log: &mut [u32],
    work: &mut [u32],
    wide: &mut [u64],
) -> Answer
    requires { Admission call.now size at (memory_of route.old log.old work.old wide.old) }
    ensures { Answers (call_with call.now (memory_of route.old log.old work.old wide.old)) result (memory_of route.new log.new work.new wide.new) }
{
    let first = begin::begin(call, size, at, work, wide, route);
    let mut space = Workspace { work, wide, size };
    let last = running::run(call, &mut space, route, log, first);
    finish::finish(route, call.taken(), size, last)
}
