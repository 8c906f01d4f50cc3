// Jobs of the bench program, as bytes, up to the guide count: plan length, the plan, start, goal, barred number,
// allowance, rounds and factors, guide count.
ghost use Rattle.std.specs.Prelude.{◌≡◌};
ghost use Rattle.job.specs.Front.{front, ends, rounds};

use crate::numbers;
use job::{Ends, Front};

// The limits of a job: its rounds and guides.
const MAX_JOB_ROUNDS: u32 = 16;

const MAX_JOB_GUIDES: u32 = 8;

// Rounds and factors, and the guide count.
#[tactic(auto, unfolding(job::specs::Front::rounds, job::specs::Front::following, job::specs::Front::past))]
fn read_rounds(job: &[u8], plan_at: usize, plan_end: usize, ends: Ends, at: usize) -> Option<Front>
    ensures { result ≡ rounds job.now plan_at plan_end ends at }
{
    let (round_count, factors_at) = leb128_reader::read_job_number(job, at).ok()?;
    if MAX_JOB_ROUNDS < round_count {
        return None;
    }
    let guides_at = numbers::past(job, factors_at, 2 * round_count as usize)?;
    let (guide_count, tables_at) = leb128_reader::read_job_number(job, guides_at).ok()?;
    if MAX_JOB_GUIDES < guide_count {
        return None;
    }
    Some(Front {
        plan_at,
        plan_end,
        ends,
        round_count,
        factors_at,
        guide_count,
        tables_at,
    })
}

// Start, goal, the barred classes and budget, and what follows.
#[tactic(auto, unfolding(job::specs::Front::ends, job::specs::Front::following))]
fn read_ends(job: &[u8], plan_at: usize, plan_end: usize) -> Option<Front>
    ensures { result ≡ ends job.now plan_at plan_end }
{
    let (start, goal_at) = leb128_reader::read_job_number(job, plan_end).ok()?;
    let (goal, barred_at) = leb128_reader::read_job_number(job, goal_at).ok()?;
    let (barred, budget_at) = leb128_reader::read_job_number(job, barred_at).ok()?;
    let (budget, at) = leb128_reader::read_job_number(job, budget_at).ok()?;
    let ends = Ends {
        start,
        goal,
        barred,
        budget,
    };
    read_rounds(job, plan_at, plan_end, ends, at)
}

// Where the plan begins and ends, and what follows.
#[tactic(auto, unfolding(job::specs::Front::front, job::specs::Front::following))]
pub fn read_front(job: &[u8]) -> Option<Front>
    ensures { result ≡ front job.now }
{
    let (size, plan_at) = leb128_reader::read_job_number(job, 0).ok()?;
    let plan_end = plan_at + size as usize;
    if job.len() < plan_end {
        return None;
    }
    read_ends(job, plan_at, plan_end)
}
