// The cursor over a plan's edges, which gives the next edge or the refusal.
ghost use Rattle.std.specs.Prelude.{◌<◌, ◌≡◌};
ghost use Rattle.graph.specs.Plan.{first_at, next_edge};
ghost use Rattle.plan_check.specs.Past.{next_as, HasNext};

use crate::number;
use graph::refusal::Refusal;
use graph::{Cursor, Edge};

// Before the first edge.
pub fn first(at: usize) -> Cursor
    ensures { result ≡ first_at at }
{
    Cursor {
        at,
        tail: 0,
        least: 0,
    }
}

// The edge of these numbers, and the cursor past it, which stands at an offset.
#[tactic(auto, unfolding(crate::specs::Past::next_as))]
fn next(tail: u32, head: u32, cost: u32, class: u32, at: usize) -> Result<(Edge, Cursor), Refusal>
    requires { head < 4294967295 }
    ensures { result ≡ next_as tail head cost class at }
{
    let edge = Edge {
        tail,
        head,
        cost,
        class,
    };
    let past = Cursor {
        at,
        tail,
        least: head + 1,
    };
    Ok((edge, past))
}

// The next edge of a plan with this many vertices, and the cursor past it; or the refusal of the first of
// its numbers that has one. Bytes and V, no struct: docs/PROMISES.md names the functions that read a plan by them.
#[tactic(auto, unfolding(graph::specs::Plan::next_edge, graph::specs::Rows::taking, graph::specs::Plan::least_after, graph::specs::Plan::past, crate::specs::Past::next_as), using(crate::proofs::NextEdge::taken_tail, crate::proofs::NextEdge::taken_head))]
pub fn next_edge(cursor: Cursor, bytes: &[u8], vertices: u32) -> Result<(Edge, Cursor), Refusal>
    ensures { result ≡ next_edge vertices bytes.now cursor }
{
    let Cursor { at, tail, least } = cursor;
    let (difference, head_at) = number::take_tail(bytes, at, vertices, tail)?;
    let (head, cost_at) = number::take_head(bytes, head_at, vertices, difference, least)?;
    let (cost, class_at) = number::take_cost(bytes, cost_at)?;
    let (class, end) = number::take_class(bytes, class_at)?;
    next(tail + difference, head, cost, class, end)
}

// The next edge of a plan that was checked, and the cursor past it: its numbers are read, and of their rows only
// the first is tried, by reading. The refusals are never given.
pub fn next_checked(cursor: Cursor, bytes: &[u8], vertices: u32) -> Result<(Edge, Cursor), Refusal>
    requires { HasNext vertices bytes.now cursor }
    ensures { result ≡ next_edge vertices bytes.now cursor }
{
    let (difference, head_at) = leb128_reader::read_plan_number(bytes, cursor.at)?;
    let (head, cost_at) = leb128_reader::read_plan_number(bytes, head_at)?;
    let (cost, class_at) = leb128_reader::read_plan_number(bytes, cost_at)?;
    let (class, end) = leb128_reader::read_plan_number(bytes, class_at)?;
    next(cursor.tail + difference, head, cost, class, end)
}
