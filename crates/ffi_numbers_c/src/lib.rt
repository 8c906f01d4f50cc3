// The functions on numbers (`ffi_numbers`), as programs in C and Rust link them.
#![tactic(auto)]

ghost use Rattle.std.specs.Prelude.{◌≡◌};
ghost use Rattle.leb128.specs.Number.{plan_groups, job_groups, read, write_answer, written};
ghost use Rattle.ffi_numbers.specs.Figures.{read_figures, written_figures};

// The plan number at an offset.
#[unsafe(no_mangle)]
pub extern "C" fn secondcoop_read_plan_number(bytes: &[u8], at: usize, figures: &mut [u64; 4])
    ensures { figures.new ≡ read_figures (read plan_groups bytes.now at) }
{
    ffi_numbers::secondcoop_read_plan_number(bytes, at, figures);
}

// The number of a bench job at an offset.
#[unsafe(no_mangle)]
pub extern "C" fn secondcoop_read_job_number(bytes: &[u8], at: usize, figures: &mut [u64; 4])
    ensures { figures.new ≡ read_figures (read job_groups bytes.now at) }
{
    ffi_numbers::secondcoop_read_job_number(bytes, at, figures);
}

// A plan number written at an offset.
#[unsafe(no_mangle)]
pub extern "C" fn secondcoop_write_plan_number(
    out: &mut [u8],
    at: usize,
    value: u32,
    figures: &mut [u64; 4],
)
    ensures figures_after { figures.new ≡ written_figures (write_answer plan_groups out.old at value) }
    ensures out_after { out.new ≡ written plan_groups out.old at value }
{
    ffi_numbers::secondcoop_write_plan_number(out, at, value, figures);
}
