// The explanation of a planner call over memory of the bench program, and its text.
ghost use Rattle.planner.specs.Plan.{call_with};
ghost use Rattle.job.specs.Asked.{zeros};
ghost use Rattle.job.specs.Explained.{inquiry_asked, inquiry_text};
ghost use Rattle.job.specs.Texts.{Texts};

use crate::planning::{ROUTE, WIDE, WORK};
use admission::Call;

// Words of both lists.
const VERTICES: usize = 256;

const EDGES: usize = 2048;

// The call explained, and what is explained printed.
pub fn explain_call(out: &mut [u8], call: &Call<'_>) -> usize
    ensures { Texts (inquiry_text (inquiry_asked (call_with call.now zeros))) out.old result out.new }
{
    let mut route = [0u32; ROUTE];
    let mut log = [0u32; 0];
    let mut work = [0u32; WORK];
    let mut wide = [0u64; WIDE];
    let mut vertices = [0u32; VERTICES];
    let mut edges = [0u32; EDGES];
    let size = explanation::size(call.bytes);
    let explanation = explanation::explain(
        call,
        &mut route,
        &mut log,
        &mut work,
        &mut wide,
        &mut vertices,
        &mut edges,
    );
    printing::put_explanation(out, explanation, &route, &work, size, &vertices, &edges)
}
