// Job bytes to printed text, with a line for every turn or with the reason for "no route", in a lent buffer.
#![tactic(auto)]

mod asking;
mod explaining;
mod planning;

ghost use Rattle.job.specs.Explained.{explain_text};
ghost use Rattle.job.specs.Texts.{Texts, Prints};

// The text that the bench program prints for a job: its length, and its first bytes in the buffer, as far as
// there is room; it has a line for every turn.
pub fn bench_text(job: &[u8], out: &mut [u8]) -> usize
    ensures { Prints job.now out.old result out.new }
{
    match job_reader::read_but_edges(job) {
        Ok((front, vertices)) => planning::plan_job(out, job, front, vertices),
        Err(refusal) => printing::put_refused(out, refusal.cause.number(), refusal.at),
    }
}

// The lines of a job's explanation: their length, and their first bytes in the buffer, as far as there is room. Apart from
// the above, as C has both.
pub fn explain_text(job: &[u8], out: &mut [u8]) -> usize
    ensures { Texts (explain_text job.now) out.old result out.new }
{
    match job_reader::read_but_edges(job) {
        Ok((front, vertices)) => planning::explain_job(out, job, front, vertices),
        Err(refused) => printing::put_refused(out, refused.cause.number(), refused.at),
    }
}
