// The numbers of a bench job in a row, passed over.
ghost use Rattle.std.specs.Prelude.{◌≡◌};
ghost use Rattle.job.specs.Numbers.{end_of};

// The offset past `count` numbers; none where one is missing or of bad form.
#[tactic(auto, using(crate::proofs::Ends::ending_none, crate::proofs::Ends::ending_next, crate::proofs::Ends::ending_refused, crate::proofs::Ends::ending_all))]
pub fn past(job: &[u8], at: usize, count: usize) -> Option<usize>
    ensures { result ≡ end_of count job.now at }
{
    let mut end = at;
    for _ in 0..count {
        let (_, next) = leb128_reader::read_job_number(job, end).ok()?;
        end = next;
    }
    Some(end)
}
