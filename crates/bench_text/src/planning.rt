// The call that a job asks which was read but for its plan's edges, made or explained, and its text.
ghost use Rattle.std.specs.Prelude.{◌≡◌, Ok};
ghost use Rattle.planner.specs.Plan.{call_with};
ghost use Rattle.job.specs.Asked.{zeros, call_asked};
ghost use Rattle.job.specs.Printed.{call_text};
ghost use Rattle.job.specs.Explained.{inquiry_asked, inquiry_text};
ghost use Rattle.job.specs.Texts.{Texts};
ghost use Rattle.job_reader.specs.ButEdges.{read_but_edges};

use crate::asking::{FACTORS, TABLES};
use crate::{asking, explaining};
use admission::Call;
use job::Front;
use schedule::default_schedule::DefaultSchedule;

// Words of lent memory: route memory, a log, work memory for 256 vertices and 2,048 edges, and the numbers of the wide
// work memory.
pub const ROUTE: usize = 256;

const LOG: usize = 8192;

pub const WORK: usize = 6913;

pub const WIDE: usize = 512;

// The planner call, and what it hands over printed.
fn plan_call(out: &mut [u8], call: &Call<'_>) -> usize
    ensures { Texts (call_text (call_with call.now zeros)) out.old result out.new }
{
    let mut route = [0u32; ROUTE];
    let mut log = [0u32; LOG];
    let mut work = [0u32; WORK];
    let mut wide = [0u64; WIDE];
    let answer = planner::plan(call, &mut route, &mut log, &mut work, &mut wide);
    printing::put_answer(out, answer, &route, &log)
}

// Such a job: its call is made, and its text printed. Two plain functions, this and the next: one over a closure was tried,
// and its proof did not close.
pub fn plan_job(out: &mut [u8], job: &[u8], front: Front, vertices: u32) -> usize
    requires { read_but_edges job.now ≡ Ok (front, vertices) }
    ensures { Texts (call_text (call_asked job.now front vertices)) out.old result out.new }
{
    let mut factors = [0; FACTORS];
    let mut tables = [0; TABLES];
    let standard = DefaultSchedule::standard();
    let call = asking::ask(job, front, vertices, &mut factors, &mut tables, &standard);
    plan_call(out, &call)
}

// Such a job: its call is explained, and the explanation printed.
pub fn explain_job(out: &mut [u8], job: &[u8], front: Front, vertices: u32) -> usize
    requires { read_but_edges job.now ≡ Ok (front, vertices) }
    ensures { Texts (inquiry_text (inquiry_asked (call_asked job.now front vertices))) out.old result out.new }
{
    let mut factors = [0; FACTORS];
    let mut tables = [0; TABLES];
    let standard = DefaultSchedule::standard();
    let call = asking::ask(job, front, vertices, &mut factors, &mut tables, &standard);
    explaining::explain_call(out, &call)
}
