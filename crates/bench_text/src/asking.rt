// The call that a job asks which was read but for its plan's edges.
ghost use Rattle.std.specs.Prelude.{◌≡◌, Ok};
ghost use Rattle.job.specs.Asked.{zeros, call_asked};
ghost use Rattle.job_reader.specs.ButEdges.{read_but_edges};
ghost use Rattle.schedule.specs.DefaultSchedule.{initial};
ghost use Rattle.planner.specs.Plan.{call_with};

use admission::Call;
use job::Front;
use job_reader::storing;
use schedule::default_schedule::DefaultSchedule;

// Words of memory: a schedule of 16 rounds; an anchor table and 8 guide sheets of 256 numbers.
pub const FACTORS: usize = 32;

pub const TABLES: usize = 2304;

// The call that such a job asks on the standard default schedule, our six rounds: its factors and its tables are stored
// in lent memory. A front and V beside it, no struct: they are the reader's answer, in this order.
pub fn ask<'a>(
    job: &'a [u8],
    front: Front,
    vertices: u32,
    factors: &'a mut [u32; FACTORS],
    tables: &'a mut [u32; TABLES],
    standard: &'a DefaultSchedule,
) -> Call<'a>
    requires read { read_but_edges job.now ≡ Ok (front, vertices) }
    requires ours { standard.now ≡ initial }
    ensures { call_with result zeros ≡ call_asked job.now front vertices }
{
    let few = 2 * front.round_count as usize;
    let all = (1 + front.guide_count as usize) * vertices as usize;
    storing::store(job, front.factors_at, few, factors);
    storing::store(job, front.tables_at, all, tables);
    let (anchor, guides) = tables[..all].split_at(vertices as usize);
    let ends = front.ends;
    Call {
        bytes: &job[front.plan_at..front.plan_end],
        start: ends.start,
        goal: ends.goal,
        barred: ends.barred,
        anchor,
        guides,
        guide_count: front.guide_count,
        schedule: &factors[..few],
        default_schedule: &standard.numbers[..standard.count as usize],
        budget: ends.budget,
    }
}
