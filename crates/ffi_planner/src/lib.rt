// Planner calls, explanations, the default schedule and the bench text for programs in C and Rust: answers as figures,
// over numbers and lent memory. The default schedule is called the house schedule there, as users call it.
#![tactic(auto)]

pub mod explanations;

ghost use Rattle.std.specs.Prelude.{◌≡◌};
ghost use Rattle.planner.specs.Plan.{memory_of, call_of};
ghost use Rattle.job.specs.Texts.{Prints};
ghost use Rattle.schedule.specs.DefaultSchedule.{initial, loading};
ghost use Rattle.ffi_planner.specs.Calls.{Shows, Exported};
ghost use Rattle.ffi_planner.specs.House.{house_of, LoadedTo};

use admission::Call;
use graph::refusal::Refusal;
use schedule::default_schedule::DefaultSchedule;
use search::Answer;

// A planner call's answer as eight figures, the ending, a refusal's number and position, then cost, length, rounds, turns and
// bound.
#[derive(Clone, Copy)]
pub struct Figures(pub [u64; 8]);

impl From<Result<Answer, Refusal>> for Figures {
    ghost from_gives = { Shows };

    #[tactic(auto, unfolding(crate::specs::Calls::answer_figures, crate::specs::Calls::eight, crate::specs::Calls::ending_number, search::specs::Outcome::figures))]
    fn from(answer: Result<Answer, Refusal>) -> Figures {
        Figures(match answer {
            Ok(Answer::Route(s)) => [
                0,
                0,
                0,
                s.cost,
                u64::from(s.length),
                u64::from(s.rounds),
                u64::from(s.expansions),
                u64::from(s.bound),
            ],
            Ok(Answer::NoRoute(turns)) => [1, 0, 0, 0, 0, 0, u64::from(turns), 0],
            Ok(Answer::Unfinished(turns)) => [2, 0, 0, 0, 0, 0, u64::from(turns), 0],
            Err(Refusal { cause, at }) => [3, u64::from(cause.number()), at as u64, 0, 0, 0, 0, 0],
        })
    }
}

// The house schedule until a sheet is accepted.
#[unsafe(no_mangle)]
pub extern "C" fn secondcoop_standard_house(numbers: &mut [u32; 32], count: &mut u32)
    ensures { house_of numbers.new count.new ≡ initial }
{
    let standard = DefaultSchedule::standard();
    let six = standard.numbers;
    *numbers = six;
    *count = standard.count;
}

// A sheet loaded as the house schedule: 0, or 10 where it is rejected, and then nothing is written.
#[unsafe(no_mangle)]
pub extern "C" fn secondcoop_load_house(
    sheet: &[u32],
    numbers: &mut [u32; 32],
    count: &mut u32,
) -> u32
    ensures { LoadedTo (loading (house_of numbers.old count.old) sheet.now) result (house_of numbers.new count.new) }
{
    let previous = *numbers;
    let house = DefaultSchedule {
        numbers: previous,
        count: *count,
    };
    if let Ok(loaded) = house.load(sheet) {
        let in_force = loaded.numbers;
        *numbers = in_force;
        *count = loaded.count;
        return 0;
    }
    10
}

// A planner call. One by one, as the C interface has them: `Call` is made of them here.
#[unsafe(no_mangle)]
pub extern "C" fn secondcoop_plan<'a>(
    bytes: &[u8],
    start: u32,
    goal: u32,
    barred: u32,
    anchor: &[u32],
    guides: &[u32],
    guide_count: u32,
    schedule: &'a [u32],
    house: &'a [u32],
    budget: u32,
    route: &mut [u32],
    log: &mut [u32],
    work: &mut [u32],
    wide: &mut [u64],
    figures: &mut [u64; 8],
)
    ensures { Exported (call_of bytes.now start goal barred anchor.now guides.now guide_count schedule.now house.now budget (memory_of route.old log.old work.old wide.old)) figures.new (memory_of route.new log.new work.new wide.new) }
{
    let call = Call {
        bytes,
        start,
        goal,
        barred,
        anchor,
        guides,
        guide_count,
        schedule,
        default_schedule: house,
        budget,
    };
    let Figures(shown) = Figures::from(planner::plan(&call, route, log, work, wide));
    *figures = shown;
}

// The text that the bench program prints for a job.
#[unsafe(no_mangle)]
pub extern "C" fn secondcoop_bench_text(job: &[u8], text: &mut [u8]) -> usize
    ensures { Prints job.now text.old result text.new }
{
    bench_text::bench_text(job, text)
}
