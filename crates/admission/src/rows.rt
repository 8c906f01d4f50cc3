// Rows 8, 9 and 11 to 13 of a call, and all of 8 to 13 downwards.
ghost use Rattle.std.specs.Prelude.{◌+◌, ◌*◌, ◌<◌, ◌≡◌, not, ◌&&◌, ◌||◌, [], ◌∷◌, length, get_or, ltb, eqb, Ok};
ghost use Rattle.graph.specs.declared.refusal.Cause.TheVariants as cause;
ghost use Rattle.graph.specs.Plan.{header, first_at, edges_from};
ghost use Rattle.search.specs.Call.{row, first};
ghost use Rattle.admission.specs.Broken.{edges_read};
ghost use Rattle.admission.specs.Verdict.{verdict};
ghost use Rattle.admission.specs.Admission.{Decided};

use crate::{Call, Lengths};
use graph::Size;
use graph::refusal::{Cause, Refusal};

// How many inadmissible heuristics (guide sheets) a call may have.
const MAX_GUIDES: u32 = 8;

// The number that bars all classes, 0 to 7.
const MAX_BARRED: u32 = 255;

// Row 8: start or goal is not a vertex, or the number of the barred classes is above 255.
// Numbers and no Call: the row's own, so that it reads as the table's line; the next two likewise.
fn ends_fail(start: u32, goal: u32, barred: u32, vertices: u32) -> bool
    ensures { result ≡ (not (ltb start vertices && ltb goal vertices) || ltb 255 barred) }
{
    !(start < vertices && goal < vertices) || MAX_BARRED < barred
}

// Row 9, by the tables' lengths: over 8 guides, or tables not V numbers each.
fn tables_fail(vertices: u32, anchor: usize, guides: usize, guide_count: u32) -> bool
    ensures { result ≡ (ltb 8 guide_count || not (eqb anchor vertices && eqb guides (guide_count * vertices))) }
{
    let each = vertices as usize;
    MAX_GUIDES < guide_count || !(anchor == each && guides == guide_count as usize * each)
}

// Row 11, by the lengths of lent memory: route under V words, work under 3V+1+3M words, or wide under 2V numbers.
fn memory_fails(size: Size, lengths: Lengths) -> bool
    ensures { result ≡ (ltb lengths.route size.vertices || ltb lengths.work (3 * size.vertices + 1 + 3 * size.edges) || ltb lengths.wide (2 * size.vertices)) }
{
    let v = size.vertices as usize;
    let m = size.edges as usize;
    lengths.route < v || lengths.work < 3 * v + 1 + 3 * m || lengths.wide < 2 * v
}

// Row 12, the anchor heuristic is not 0 at the goal; then row 13, whose position is the first edge that breaks the
// anchor rule.
#[tactic(auto, unfolding(crate::specs::Verdict::verdict, search::specs::Call::first, search::specs::Call::row))]
fn anchor_verdict(
    size: Size,
    at: usize,
    goal: u32,
    anchor: &[u32],
    broken: usize,
) -> Result<(Size, usize), Refusal>
    requires anchor_len { length anchor.now ≡ size.vertices }
    requires goal_lt_vertices { goal < size.vertices }
    ensures { result ≡ verdict size.vertices size.edges at (first (row (not (eqb (get_or anchor.now goal 0) 0)) cause.Goal 0 ∷ row (ltb broken size.edges) cause.AnchorRule broken ∷ [])) }
{
    if anchor[goal as usize] != 0 {
        return Err(Cause::Goal.at(0));
    }
    if broken < size.edges as usize {
        return Err(Cause::AnchorRule.at(broken));
    }
    Ok((size, at))
}

// The rows of a call whose plan was read, with the number of the first edge that breaks the anchor rule, or M.
pub fn call_verdict(
    call: &Call<'_>,
    size: Size,
    at: usize,
    lengths: Lengths,
    broken: usize,
) -> Result<(Size, usize), Refusal>
    requires header_is { header call.now.bytes.now ≡ Ok (size, at) }
    requires edges_are { edges_read call.now.anchor.now (edges_from size.vertices size.edges call.now.bytes.now (first_at at)) ≡ Ok broken }
    ensures { Decided call.now lengths result }
{
    let Call {
        start,
        goal,
        barred,
        anchor,
        guides,
        guide_count,
        ..
    } = *call;
    if ends_fail(start, goal, barred, size.vertices) {
        return Err(Cause::Ends.at(0));
    }
    if tables_fail(size.vertices, anchor.len(), guides.len(), guide_count) {
        return Err(Cause::Tables.at(0));
    }
    if schedule::schedule_fails(call.taken()) {
        return Err(Cause::Schedule.at(0));
    }
    if memory_fails(size, lengths) {
        return Err(Cause::Memory.at(0));
    }
    anchor_verdict(size, at, goal, anchor, broken)
}
