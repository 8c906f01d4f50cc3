// A plan number through all its rows: read, or refused with the offset of its first byte.
ghost use Rattle.std.specs.Prelude.{◌≡◌, cond, eqb};
ghost use Rattle.graph.specs.Rows.{take_number, vertex_count_rows, edge_count_rows, tail_rows, head_rows, cost_rows, class_rows};
ghost use Rattle.plan_check.specs.Range.{range_rows};

use graph::refusal::{Cause, Refusal};

// A number through the rows of a range: `above` where it is the limit or more, then `below` where it is
// under the least.
#[tactic(auto, unfolding(graph::specs::Rows::through, graph::specs::Rows::through_all, graph::specs::Rows::take_number, crate::specs::Range::range_rows))]
fn take_in(
    bytes: &[u8],
    at: usize,
    limit: u32,
    above: Cause,
    least: u32,
    below: Cause,
) -> Result<(u32, usize), Refusal>
    ensures { result ≡ take_number bytes.now at (range_rows limit above least below) }
{
    let (value, next) = leb128_reader::read_plan_number(bytes, at)?;
    if limit <= value {
        return Err(above.at(at));
    }
    if value < least {
        return Err(below.at(at));
    }
    Ok((value, next))
}

// V, at the front.
#[tactic(auto, using(crate::proofs::Ranges::vertex_count_range))]
pub fn take_vertex_count(bytes: &[u8]) -> Result<(u32, usize), Refusal>
    ensures { result ≡ take_number bytes.now 0 vertex_count_rows }
{
    let limit = graph::MAX_VERTICES + 1;
    take_in(bytes, 0, limit, Cause::VertexCount, 1, Cause::VertexCount)
}

// M.
#[tactic(auto, using(crate::proofs::Ranges::edge_count_range))]
pub fn take_edge_count(bytes: &[u8], at: usize) -> Result<(u32, usize), Refusal>
    ensures { result ≡ take_number bytes.now at edge_count_rows }
{
    let limit = graph::MAX_EDGES + 1;
    take_in(bytes, at, limit, Cause::EdgeCount, 0, Cause::EdgeCount)
}

// The difference of a tail to the tail before it. The sum is tested, which may pass 32 bits.
#[tactic(auto, unfolding(graph::specs::Rows::through, graph::specs::Rows::through_all, graph::specs::Rows::take_number, graph::specs::Rows::tail_rows))]
pub fn take_tail(bytes: &[u8], at: usize, vertices: u32, tail: u32) -> Result<(u32, usize), Refusal>
    ensures { result ≡ take_number bytes.now at (tail_rows vertices tail) }
{
    let (difference, next) = leb128_reader::read_plan_number(bytes, at)?;
    let sum = u64::from(tail) + u64::from(difference);
    if u64::from(vertices) <= sum {
        return Err(Cause::Vertex.at(at));
    }
    Ok((difference, next))
}

// A head. The least head counts where the difference of the tails is 0; difference and head are compared with it as
// one number.
#[tactic(auto, unfolding(graph::specs::Rows::through, graph::specs::Rows::through_all, graph::specs::Rows::take_number, graph::specs::Rows::head_rows), using(crate::proofs::Ranges::below, crate::proofs::Ranges::from))]
pub fn take_head(
    bytes: &[u8],
    at: usize,
    vertices: u32,
    difference: u32,
    least: u32,
) -> Result<(u32, usize), Refusal>
    ensures { result ≡ take_number bytes.now at (head_rows vertices (cond (eqb difference 0) least 0)) }
{
    let (head, next) = leb128_reader::read_plan_number(bytes, at)?;
    if vertices <= head {
        return Err(Cause::Vertex.at(at));
    }
    let found = 4294967296 * u64::from(difference) + u64::from(head);
    if found < u64::from(least) {
        return Err(Cause::Order.at(at));
    }
    Ok((head, next))
}

// A cost.
#[tactic(auto, using(crate::proofs::Ranges::cost_range))]
pub fn take_cost(bytes: &[u8], at: usize) -> Result<(u32, usize), Refusal>
    ensures { result ≡ take_number bytes.now at cost_rows }
{
    let limit = graph::MAX_COST + 1;
    take_in(bytes, at, limit, Cause::Cost, 0, Cause::Cost)
}

// A class.
#[tactic(auto, using(crate::proofs::Ranges::class_range))]
pub fn take_class(bytes: &[u8], at: usize) -> Result<(u32, usize), Refusal>
    ensures { result ≡ take_number bytes.now at class_rows }
{
    let limit = graph::MAX_CLASS + 1;
    take_in(bytes, at, limit, Cause::Class, 0, Cause::Class)
}
