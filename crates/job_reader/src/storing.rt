// The numbers of a bench job in a row, stored.
ghost use Rattle.std.specs.Prelude.{◌≤◌, ◌≡◌, length};
ghost use Rattle.std.proofs.lemmas.List.Edits.{sets};
ghost use Rattle.job.specs.Numbers.{values};

// `count` numbers stored from the front on, up to the first that is missing or of bad form.
#[tactic(auto, using(crate::proofs::Stores::storing_none, crate::proofs::Stores::storing_over, crate::proofs::Stores::storing_all))]
pub fn store(job: &[u8], at: usize, count: usize, into: &mut [u32])
    requires { count ≤ length into.old }
    ensures { into.new ≡ sets into.old 0 (values count job.now at) }
{
    let mut next = at;
    for i in 0..count {
        let Ok((value, end)) = leb128_reader::read_job_number(job, next) else {
            return;
        };
        into[i] = value;
        next = end;
    }
}
