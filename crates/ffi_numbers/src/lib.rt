// Numbers for programs in C and Rust: answers as four figures, over numbers and lent memory. `ffi_numbers_c` exports these functions.
#![tactic(auto)]

ghost use Rattle.std.specs.Prelude.{◌≡◌};
ghost use Rattle.leb128.specs.Number.{plan_groups, job_groups, read, write_answer, written};
ghost use Rattle.ffi_numbers.specs.Figures.{read_figures, written_figures, ShowsRead, ShowsWritten};

use leb128::{Malformed, WriteError};

// An answer as four figures: refusal number, position, first and second value.
#[derive(Clone, Copy)]
pub struct Figures(pub [u64; 4]);

impl From<Result<(u32, usize), Malformed>> for Figures {
    ghost from_gives = { ShowsRead };

    fn from(read: Result<(u32, usize), Malformed>) -> Figures {
        match read {
            Ok((value, next)) => Figures([0, 0, u64::from(value), next as u64]),
            Err(Malformed { at }) => Figures([1, at as u64, 0, 0]),
        }
    }
}

impl From<Result<usize, WriteError>> for Figures {
    ghost from_gives = { ShowsWritten };

    fn from(written: Result<usize, WriteError>) -> Figures {
        match written {
            Ok(at) => Figures([0, 0, at as u64, 0]),
            Err(WriteError::TooLarge) => Figures([1, 0, 0, 0]),
            Err(WriteError::NoRoom) => Figures([11, 0, 0, 0]),
        }
    }
}

// The plan number at an offset.
pub fn secondcoop_read_plan_number(bytes: &[u8], at: usize, figures: &mut [u64; 4])
    ensures { figures.new ≡ read_figures (read plan_groups bytes.now at) }
{
    let Figures(shown) = Figures::from(leb128_reader::read_plan_number(bytes, at));
    *figures = shown;
}

// The number of a bench job at an offset.
pub fn secondcoop_read_job_number(bytes: &[u8], at: usize, figures: &mut [u64; 4])
    ensures { figures.new ≡ read_figures (read job_groups bytes.now at) }
{
    let Figures(shown) = Figures::from(leb128_reader::read_job_number(bytes, at));
    *figures = shown;
}

// A plan number written at an offset.
pub fn secondcoop_write_plan_number(out: &mut [u8], at: usize, value: u32, figures: &mut [u64; 4])
    ensures figures_after { figures.new ≡ written_figures (write_answer plan_groups out.old at value) }
    ensures out_after { out.new ≡ written plan_groups out.old at value }
{
    let Figures(shown) = Figures::from(leb128_writer::write_plan_number(out, at, value));
    *figures = shown;
}
