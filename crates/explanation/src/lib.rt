// The reason for "no route": a planner call made once more, and where its answer is no route, the vertices (places)
// that can be reached, and the barred edges (lanes) that leave them.
#![tactic(auto)]

mod edges;
mod listed;
mod vertices;

ghost use Rattle.std.specs.Prelude.{◌≡◌, cond, ◌||◌, ltb};
ghost use Rattle.graph.specs.Plan.{header};
ghost use Rattle.workspace.specs.Layout.{mem};
ghost use Rattle.planner.specs.Plan.{memory_of, call_with};
ghost use Rattle.explanation.specs.Explained.{inquiry_of, Explained};
ghost use Rattle.explanation.specs.Listing.{size_in, is_no_route, Listable, Lists};

use admission::Call;
use graph::Size;
use graph::refusal::Refusal;
use search::{Answer, Explanation};
use workspace::Workspace;

// V and M of a plan; 0 and 0 where its header is refused.
#[tactic(auto, unfolding(crate::specs::Listing::size_in, graph::specs::Refusal::size_of))]
pub fn size(bytes: &[u8]) -> Size
    ensures { result ≡ size_in (header bytes.now) }
{
    match plan_check::header(bytes) {
        Ok((size, _)) => size,
        Err(_) => Size {
            vertices: 0,
            edges: 0,
        },
    }
}

// How many words of route memory the call is lent: none where a list is too short, so that it is refused with 11
// where no refusal comes before.
fn route_lent(size: Size, route: usize, vertices: usize, edges: usize) -> usize
    ensures { result ≡ cond (ltb vertices size.vertices || ltb edges size.edges) 0 route }
{
    if vertices < size.vertices as usize || edges < size.edges as usize {
        0
    } else {
        route
    }
}

// Whether the answer is no route.
#[tactic(auto, unfolding(crate::specs::Listing::is_no_route))]
fn is_no_route(answer: Result<Answer, Refusal>) -> bool
    ensures { result ≡ is_no_route answer }
{
    matches!(answer, Ok(Answer::NoRoute(_)))
}

// The lists after a call with this answer, over its memory.
fn list(
    answer: Result<Answer, Refusal>,
    work: &mut [u32],
    wide: &mut [u64],
    size: Size,
    barred: u32,
    vertices: &mut [u32],
    edges: &mut [u32],
) -> Explanation<Refusal>
    requires { Listable answer size (mem work.old wide.old) vertices.old edges.old }
    ensures lists { Lists answer size barred (mem work.old wide.old) vertices.old edges.old result vertices.new edges.new }
    ensures same { (work.new ≡ work.old) × (wide.new ≡ wide.old) }
{
    if !is_no_route(answer) {
        return Explanation {
            answer,
            vertices: 0,
            edges: 0,
        };
    }
    let space = Workspace { work, wide, size };
    let reached = vertices::list_vertices(&space, vertices);
    let leaving = edges::list_edges(&space, barred, edges);
    Explanation {
        answer,
        vertices: reached,
        edges: leaving,
    }
}

// Explains a planner call, lent besides its own memory a list for V vertices and one for M edges; that memory is six
// slices in the C interface.
pub fn explain(
    call: &Call<'_>,
    route: &mut [u32],
    log: &mut [u32],
    work: &mut [u32],
    wide: &mut [u64],
    vertices: &mut [u32],
    edges: &mut [u32],
) -> Explanation<Refusal>
    ensures { Explained (inquiry_of (call_with call.now (memory_of route.old log.old work.old wide.old)) vertices.old edges.old) result (memory_of route.new log.new work.new wide.new) vertices.new edges.new }
{
    let size = size(call.bytes);
    let words = route_lent(size, route.len(), vertices.len(), edges.len());
    let answer = planner::plan(call, &mut route[..words], log, work, wide);
    list(answer, work, wide, size, call.barred, vertices, edges)
}
