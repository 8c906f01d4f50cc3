// A plan checked: V and M at its front, its edges, its end; nothing is written.
#![tactic(auto)]

pub mod cursor;
mod number;
pub mod watch;

ghost use Rattle.std.specs.Prelude.{◌≡◌};
ghost use Rattle.graph.specs.Plan as plan;
ghost use Rattle.graph.specs.Plan.{first_at, edges_from, decode, sizes};
ghost use Rattle.plan_check.specs.Watched.{watched};

use graph::Size;
use graph::refusal::{Cause, Refusal};
use watch::{Unwatched, Watch};

// V and M, and where the edges begin.
#[tactic(auto, unfolding(graph::specs::Plan::header, graph::specs::Rows::taking))]
pub fn header(bytes: &[u8]) -> Result<(Size, usize), Refusal>
    ensures { result ≡ plan.header bytes.now }
{
    let (vertices, count_at) = number::take_vertex_count(bytes)?;
    let (edges, at) = number::take_edge_count(bytes, count_at)?;
    Ok((Size { vertices, edges }, at))
}

// The edges after a header, each under a watch, and the plan's end: the watch after all, or the first refusal.
#[tactic(auto, using(crate::proofs::Watching::seen_none, crate::proofs::Watching::seen_next, crate::proofs::Watching::seen_refused, crate::proofs::Watching::seen_over, crate::proofs::Watching::seen_all))]
pub fn read_edges<W: Watch + Copy>(
    bytes: &[u8],
    size: Size,
    at: usize,
    watch: W,
) -> Result<W, Refusal>
    ensures { result ≡ watched W.seen watch 0 (edges_from size.vertices size.edges bytes.now (first_at at)) }
{
    let mut cursor = cursor::first(at);
    let mut watch = watch;
    for i in 0..size.edges as usize {
        let (edge, next) = cursor::next_edge(cursor, bytes, size.vertices)?;
        watch = watch.see(i, edge);
        cursor = next;
    }
    if cursor.at < bytes.len() {
        return Err(Cause::LeftOver.at(cursor.at));
    }
    Ok(watch)
}

// The edges after a header, and the plan's end.
#[tactic(auto, using(crate::proofs::Watching::sizes_read, crate::proofs::Watching::sizes_refused))]
pub fn check_edges(bytes: &[u8], size: Size, at: usize) -> Result<Size, Refusal>
    ensures { result ≡ sizes (edges_from size.vertices size.edges bytes.now (first_at at)) }
{
    read_edges(bytes, size, at, Unwatched)?;
    Ok(size)
}

// The whole plan: V and M, or its first refusal.
#[tactic(auto, unfolding(graph::specs::Plan::decode, graph::specs::Plan::after_header, graph::specs::Plan::sizes))]
pub fn check(bytes: &[u8]) -> Result<Size, Refusal>
    ensures { result ≡ sizes (decode bytes.now) }
{
    let (size, at) = header(bytes)?;
    check_edges(bytes, size, at)
}
