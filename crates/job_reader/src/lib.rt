// A bench job read, but for its plan's edges, and refused or accepted: plan length, the plan, start, goal, barred
// number, allowance, rounds and factors, guide count, anchor table, guide sheets.
#![tactic(auto)]

mod front;
mod numbers;
pub mod storing;

ghost use Rattle.std.specs.Prelude.{◌≡◌};
ghost use Rattle.graph.specs.Plan.{first_at, edges_from, header};
ghost use Rattle.job.specs.Reading.{after_sizes};
ghost use Rattle.job_reader.specs.ButEdges.{first_refusal, after_counts, read_but_edges};

use admission::edges;
use graph::Size;
use graph::refusal::{Cause, Refusal};
use job::Front;

// The limits of a job: its bytes, vertices (places) and edges (lanes).
const MAX_JOB_BYTES: usize = 32768;

const MAX_JOB_VERTICES: u32 = 256;

const MAX_JOB_EDGES: u32 = 2048;

// V, M, and the tables, which end the job.
#[tactic(auto, unfolding(job::specs::Reading::after_sizes, job::specs::Reading::after_tables, job::specs::Reading::table_count))]
fn after_sizes(job: &[u8], front: Front, size: Size) -> Result<(Front, u32), Refusal>
    ensures { result ≡ after_sizes job.now front size.vertices size.edges }
{
    if MAX_JOB_VERTICES < size.vertices || MAX_JOB_EDGES < size.edges {
        return Err(Cause::Job.at(0));
    }
    let count = (1 + front.guide_count as usize) * size.vertices as usize;
    let end = numbers::past(job, front.tables_at, count).ok_or(Cause::Job.at(0))?;
    if end < job.len() {
        return Err(Cause::Job.at(0));
    }
    Ok((front, size.vertices))
}

// The refusal of a job that fails after its plan: that of the plan's edges comes first. They are read by the call's own
// pass, as two passes in one library were measured to be slower; its anchor table does not matter here.
#[tactic(auto, using(crate::proofs::ButEdges::first_passed, crate::proofs::ButEdges::first_refused))]
fn first_refusal(plan: &[u8], size: Size, at: usize, failed: Refusal) -> Refusal
    ensures { result ≡ first_refusal (edges_from size.vertices size.edges plan.now (first_at at)) failed }
{
    match edges::read_edges(plan, size, at, &[]) {
        Ok(_) => failed,
        Err(refusal) => refusal,
    }
}

// The job after its front: V and M of its plan, and its tables; where these fail, the plan's edges before them.
#[tactic(auto, unfolding(crate::specs::ButEdges::after_counts, crate::specs::ButEdges::or_edges))]
fn after_front(job: &[u8], plan: &[u8], front: Front) -> Result<(Front, u32), Refusal>
    ensures { result ≡ after_counts job.now front plan.now (header plan.now) }
{
    let (size, at) = plan_check::header(plan)?;
    after_sizes(job, front, size).map_err(|failed| first_refusal(plan, size, at, failed))
}

// The whole job, but that its plan's edges are left to the call where all else passes: accepted, with V of its plan;
// or refused, as no job or by its plan.
#[tactic(auto, unfolding(crate::specs::ButEdges::read_but_edges, crate::specs::ButEdges::but_edges, job::specs::Reading::plan_of))]
pub fn read_but_edges(job: &[u8]) -> Result<(Front, u32), Refusal>
    ensures { result ≡ read_but_edges job.now }
{
    if MAX_JOB_BYTES < job.len() {
        return Err(Cause::Job.at(0));
    }
    let front = front::read_front(job).ok_or(Cause::Job.at(0))?;
    after_front(job, &job[front.plan_at..front.plan_end], front)
}
