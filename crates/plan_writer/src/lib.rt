// Writing plan bytes from V and four lists: a pass that refuses and measures, then a pass that writes.
// The cursor is the reader's: the bytes so far, and what the next edge must rise above.
#![tactic(auto)]

mod plan;

ghost use Rattle.std.specs.Prelude.{◌≡◌, ◌+◌, ◌<◌, ◌≤◌, length, set};
ghost use Rattle.std.proofs.lemmas.List.Edits.{sets};
ghost use Rattle.graph.specs.Plan.{first_at};
ghost use Rattle.graph.specs.Lists.{over, edge_bytes, edges_bytes, bytes_of, write_answer, out_after};
ghost use Rattle.plan_writer.specs.Writing.{falls, edge_measured, edges_measured, plan_measured, EdgeFits, EdgesFit, PlanFits};
ghost use Rattle.plan_writer.specs.Listed.{listed};

use crate::plan::Plan;
use graph::refusal::{Cause, Refusal};
use graph::{Cursor, Edge, MAX_CLASS, MAX_COST};
use plan_check::cursor;

// Does an edge fall behind the one before it: by its tail, or under the same tail by its head? Compared as one number.
#[tactic(auto, using(crate::proofs::Measuring::falls_as_one))]
fn falls_behind(cursor: Cursor, edge: Edge) -> bool
    ensures { result ≡ falls cursor edge }
{
    let found = 4294967296 * u64::from(edge.tail) + u64::from(edge.head);
    let least = 4294967296 * u64::from(cursor.tail) + u64::from(cursor.least);
    found < least
}

// Writes an edge's bytes after an edge with this tail, and gives the offset past them.
#[tactic(auto, using(crate::proofs::Measuring::class_one, graph::proofs::Most::edge_length, crate::proofs::Laying::laid_length, crate::proofs::Laying::edge_laid))]
fn lay_edge(out: &mut [u8], at: usize, tail: u32, edge: Edge) -> usize
    requires { EdgeFits out.old at tail edge }
    ensures value { result ≡ at + length (edge_bytes tail edge) }
    ensures out_after { out.new ≡ sets out.old at (edge_bytes tail edge) }
{
    let head_at = leb128_writer::lay_plan_number(out, at, edge.tail - tail);
    let cost_at = leb128_writer::lay_plan_number(out, head_at, edge.head);
    let class_at = leb128_writer::lay_plan_number(out, cost_at, edge.cost);
    out[class_at] = edge.class as u8;
    class_at + 1
}

impl<'a> Plan<'a> {
    // An edge through its rows, and the cursor past its bytes: its class has one.
    #[tactic(auto, unfolding(crate::specs::Writing::edge_measured, graph::specs::Lists::edge_rows, graph::specs::Rows::through, graph::specs::Plan::past, crate::specs::Writing::falls), using(crate::proofs::Measuring::not_falling, crate::proofs::Measuring::number_few, crate::proofs::Measuring::edge_size))]
    fn measure_edge(&self, cursor: Cursor, edge: Edge) -> Result<Cursor, Cause>
        requires { cursor.at ≤ 4294967295 }
        ensures { result ≡ edge_measured self.now.vertices cursor edge }
    {
        if self.vertices <= edge.tail || self.vertices <= edge.head {
            return Err(Cause::Vertex);
        }
        if falls_behind(cursor, edge) {
            return Err(Cause::Order);
        }
        if MAX_COST < edge.cost {
            return Err(Cause::Cost);
        }
        if MAX_CLASS < edge.class {
            return Err(Cause::Class);
        }
        let rise = leb128_writer::plan_number_len(edge.tail - cursor.tail);
        let size = rise
            + leb128_writer::plan_number_len(edge.head)
            + leb128_writer::plan_number_len(edge.cost)
            + 1;
        Ok(Cursor {
            at: cursor.at + size,
            tail: edge.tail,
            least: edge.head + 1,
        })
    }

    // All edges through their rows, and the count of bytes where the first one's stand at `start`.
    #[tactic(auto, using(crate::proofs::Measuring::measuring_first, crate::proofs::Measuring::measuring_end, crate::proofs::Measuring::measuring_refused))]
    fn measure_edges(&self, start: usize) -> Result<usize, Refusal>
        requires { start ≤ 5 }
        ensures { result ≡ edges_measured self.now.vertices (first_at start) 0 (listed self.now) }
    {
        let mut cursor = cursor::first(start);
        for i in 0..self.len() {
            cursor = self
                .measure_edge(cursor, self.edge(i))
                .map_err(|cause| cause.at(i))?;
        }
        Ok(cursor.at)
    }

    // All edges through their rows, and the count of the plan's bytes.
    #[tactic(auto, using(graph::proofs::Most::header_most, crate::proofs::Writer::all_measured))]
    fn measure(&self) -> Result<usize, Refusal>
        ensures { result ≡ plan_measured self.now.vertices (listed self.now) }
    {
        let count = self.len() as u32;
        let start = leb128_writer::plan_number_len(self.vertices)
            + leb128_writer::plan_number_len(count);
        self.measure_edges(start)
    }

    // Writes the bytes of all edges from `start` on.
    #[tactic(auto, using(crate::proofs::Laying::laying_first, crate::proofs::Laying::laying_end, crate::proofs::Laying::edge_fits))]
    fn lay_edges(&self, out: &mut [u8], start: usize)
        requires { EdgesFit out.old start (listed self.now) }
        ensures { out.new ≡ sets out.old start (edges_bytes 0 (listed self.now)) }
    {
        let mut at = start;
        let mut tail = 0;
        for i in 0..self.len() {
            let edge = self.edge(i);
            at = lay_edge(out, at, tail, edge);
            tail = edge.tail;
        }
    }

    // Writes the bytes of a plan that has no refusal and has room.
    #[tactic(auto, using(crate::proofs::Laying::laid_length, crate::proofs::Writer::passed_edges, crate::proofs::Writer::bytes_length, crate::proofs::Writer::plan_laid))]
    fn lay(&self, out: &mut [u8])
        requires { PlanFits out.old self.now.vertices (listed self.now) }
        ensures { out.new ≡ over (bytes_of self.now.vertices (listed self.now)) out.old }
    {
        let count = self.len() as u32;
        let count_at = leb128_writer::lay_plan_number(out, 0, self.vertices);
        let edges_at = leb128_writer::lay_plan_number(out, count_at, count);
        self.lay_edges(out, edges_at);
    }
}

// Writes a plan: the count of its bytes; or a refusal, number and position, with nothing written.
// The four lists are the C interface's.
#[tactic(auto, unfolding(graph::specs::Lists::write_answer, graph::specs::Lists::written_as, graph::specs::Lists::out_after), using(crate::proofs::Writer::edge_refused, crate::proofs::Writer::out_is))]
pub fn write(
    vertices: u32,
    tails: &[u32],
    heads: &[u32],
    costs: &[u32],
    classes: &[u32],
    out: &mut [u8],
) -> Result<usize, Refusal>
    ensures value { result ≡ write_answer vertices tails.now heads.now costs.now classes.now out.old }
    ensures out_after { out.new ≡ out_after vertices tails.now heads.now costs.now classes.now out.old result }
{
    let plan = Plan::new(vertices, tails, heads, costs, classes)?;
    let size = plan.measure()?;
    if out.len() < size {
        return Err(Cause::Memory.at(0));
    }
    plan.lay(out);
    Ok(size)
}
