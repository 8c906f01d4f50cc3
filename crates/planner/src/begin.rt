// The search at first: the graph and the vertices at first in the work memories, and what step 1 says of them.
ghost use Rattle.workspace.specs.Layout.{mem};
ghost use Rattle.planner.specs.Begun.{Beginning, Begins};

use crate::{Standing, rounds};
use admission::Call;
use graph::Size;
use workspace::Workspace;

// The plan's graph is loaded, whose first edge stands at an offset, the vertices at first are laid, and
// the search begins.
pub fn begin(
    call: &Call<'_>,
    size: Size,
    at: usize,
    work: &mut [u32],
    wide: &mut [u64],
    route: &mut [u32],
) -> Standing
    requires { Beginning call.now size at (mem work.old wide.old) route.old }
    ensures { Begins call.now size at (mem work.old wide.old) route.old result (mem work.new wide.new) route.new }
{
    loader::load_graph(call.bytes, work, size, at);
    let mut space = Workspace::begin(work, wide, size, call.start);
    let p = progress::at_first(call.guide_count);
    let left = schedule::rounds(call.taken());
    rounds::settle(call, &mut space, route, left, p)
}
