// Plans for programs in C and Rust: answers as four figures, over numbers and lent memory.
#![tactic(auto)]

ghost use Rattle.std.specs.Prelude.{◌≡◌};
ghost use Rattle.graph.specs.Plan.{decode, sizes};
ghost use Rattle.graph.specs.Lists.{tail_of, head_of, cost_of, class_of, read_answer, list_after};
ghost use Rattle.graph.specs.Lists as lists;
ghost use Rattle.graph.specs.Refusal.{number_of};
ghost use Rattle.ffi_numbers.specs.Figures.{figures};
ghost use Rattle.ffi_plans.specs.Figures.{plan_figures, count_figures, ShowsPlan, ShowsCount};

use graph::Size;
use graph::refusal::Refusal;

// An answer as four figures, refusal number, position, first and second value. A type of this crate's own, as the like one of
// `ffi_numbers` is of that: `From` is for a crate's own types.
#[derive(Clone, Copy)]
pub struct Figures(pub [u64; 4]);

// The figures of a refusal.
fn refused(refusal: Refusal) -> Figures
    ensures { result.0 ≡ figures (number_of refusal.cause) refusal.at 0 0 }
{
    let Refusal { cause, at } = refusal;
    Figures([u64::from(cause.number()), at as u64, 0, 0])
}

impl From<Result<Size, Refusal>> for Figures {
    ghost from_gives = { ShowsPlan };

    fn from(read: Result<Size, Refusal>) -> Figures {
        match read {
            Ok(Size { vertices, edges }) => Figures([0, 0, u64::from(vertices), u64::from(edges)]),
            Err(refusal) => refused(refusal),
        }
    }
}

impl From<Result<usize, Refusal>> for Figures {
    ghost from_gives = { ShowsCount };

    fn from(written: Result<usize, Refusal>) -> Figures {
        match written {
            Ok(count) => Figures([0, 0, count as u64, 0]),
            Err(refusal) => refused(refusal),
        }
    }
}

// A whole plan checked.
#[unsafe(no_mangle)]
pub extern "C" fn secondcoop_check_plan(bytes: &[u8], figures: &mut [u64; 4])
    ensures { figures.new ≡ plan_figures (sizes (decode bytes.now)) }
{
    let Figures(shown) = Figures::from(plan_check::check(bytes));
    *figures = shown;
}

// A plan read into four lists.
#[unsafe(no_mangle)]
pub extern "C" fn secondcoop_read_plan(
    bytes: &[u8],
    tails: &mut [u32],
    heads: &mut [u32],
    costs: &mut [u32],
    classes: &mut [u32],
    figures: &mut [u64; 4],
)
    ensures figures_after { figures.new ≡ plan_figures (read_answer bytes.now tails.old heads.old costs.old classes.old) }
    ensures tails_after { tails.new ≡ list_after tail_of bytes.now tails.old (read_answer bytes.now tails.old heads.old costs.old classes.old) }
    ensures heads_after { heads.new ≡ list_after head_of bytes.now heads.old (read_answer bytes.now tails.old heads.old costs.old classes.old) }
    ensures costs_after { costs.new ≡ list_after cost_of bytes.now costs.old (read_answer bytes.now tails.old heads.old costs.old classes.old) }
    ensures classes_after { classes.new ≡ list_after class_of bytes.now classes.old (read_answer bytes.now tails.old heads.old costs.old classes.old) }
{
    let read = plan_reader::read(bytes, tails, heads, costs, classes);
    let Figures(shown) = Figures::from(read);
    *figures = shown;
}

// A plan written from V and four lists.
#[unsafe(no_mangle)]
pub extern "C" fn secondcoop_write_plan(
    vertices: u32,
    tails: &[u32],
    heads: &[u32],
    costs: &[u32],
    classes: &[u32],
    out: &mut [u8],
    figures: &mut [u64; 4],
)
    ensures figures_after { figures.new ≡ count_figures (lists.write_answer vertices tails.now heads.now costs.now classes.now out.old) }
    ensures out_after { out.new ≡ lists.out_after vertices tails.now heads.now costs.now classes.now out.old (lists.write_answer vertices tails.now heads.now costs.now classes.now out.old) }
{
    let written = plan_writer::write(vertices, tails, heads, costs, classes, out);
    let Figures(shown) = Figures::from(written);
    *figures = shown;
}
