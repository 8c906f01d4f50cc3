// One pass over a plan's edges: the first refusal, and on the way the anchor rule, h0(tail) ≤ cost + h0(head) on
// every edge.
ghost use Rattle.std.specs.Prelude.{◌≡◌, get_or};
ghost use Rattle.graph.specs.Plan.{first_at, edges_from};
ghost use Rattle.admission.specs.Broken as rule;

use graph::refusal::Refusal;
use graph::{Edge, Size};
use plan_check::watch::Watch;

// The watch for the rule: the number of the first edge that breaks it, M where none does yet.
#[derive(Clone, Copy)]
struct FirstBroken<'a> {
    anchor: &'a [u32],
    broken: usize,
}

impl<'a> Watch for FirstBroken<'a> {
    ghost seen = { rule.seen };

    #[tactic(auto, unfolding(crate::specs::Broken::seen))]
    fn see(self, i: usize, edge: Edge) -> FirstBroken<'a> {
        let FirstBroken { anchor, broken } = self;
        let broken = first_broken(broken, i, edge, anchor);
        FirstBroken { anchor, broken }
    }
}

// The anchor heuristic at a vertex, 0 past the table's end.
fn anchor_at(anchor: &[u32], vertex: u32) -> u32
    ensures { result ≡ get_or anchor.now vertex 0 }
{
    let i = vertex as usize;
    if i < anchor.len() { anchor[i] } else { 0 }
}

// Whether an edge breaks the rule; the sum may pass 32 bits.
#[tactic(auto, unfolding(crate::specs::Broken::breaks))]
fn breaks(edge: Edge, anchor: &[u32]) -> bool
    ensures { result ≡ rule.breaks anchor.now edge }
{
    let through = u64::from(edge.cost) + u64::from(anchor_at(anchor, edge.head));
    through < u64::from(anchor_at(anchor, edge.tail))
}

// The first edge that breaks the rule up to edge i, where `broken` is the first before it, or M.
#[tactic(auto, unfolding(crate::specs::Broken::broken_after))]
fn first_broken(broken: usize, i: usize, edge: Edge, anchor: &[u32]) -> usize
    ensures { result ≡ rule.broken_after anchor.now broken i edge }
{
    if !breaks(edge, anchor) {
        return broken;
    }
    if i < broken { i } else { broken }
}

// All edges after a header, and the plan's end, under an anchor table of any length: the first edge that breaks the
// rule, M where none does.
#[tactic(auto, using(crate::proofs::AnchorRule::rule_read, crate::proofs::AnchorRule::rule_refused))]
pub fn read_edges(bytes: &[u8], size: Size, at: usize, anchor: &[u32]) -> Result<usize, Refusal>
    ensures { result ≡ rule.edges_read anchor.now (edges_from size.vertices size.edges bytes.now (first_at at)) }
{
    let broken = size.edges as usize;
    let found = plan_check::read_edges(bytes, size, at, FirstBroken { anchor, broken })?;
    Ok(found.broken)
}
