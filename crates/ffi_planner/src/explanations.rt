// Explanations for programs in C and Rust: answers as ten figures, both lists, and the lines of a bench job.
ghost use Rattle.std.specs.Prelude.{◌≡◌};
ghost use Rattle.planner.specs.Plan.{memory_of, call_of};
ghost use Rattle.explanation.specs.Explained.{inquiry_of};
ghost use Rattle.job.specs.Explained.{explain_text};
ghost use Rattle.job.specs.Texts.{Texts};
ghost use Rattle.ffi_planner.specs.Explanations.{ShowsReason, ExportedReason};

use crate::Figures;
use admission::Call;
use graph::refusal::Refusal;
use search::Explanation;

// An explanation as ten figures, those of the call's answer, then how many vertices and edges are listed.
#[derive(Clone, Copy)]
pub struct ReasonFigures(pub [u64; 10]);

impl From<Explanation<Refusal>> for ReasonFigures {
    ghost from_gives = { ShowsReason };

    #[tactic(auto, unfolding(crate::specs::Explanations::explanation_figures, crate::specs::Calls::answer_figures, crate::specs::Calls::eight))]
    fn from(explanation: Explanation<Refusal>) -> ReasonFigures {
        let Figures(f) = Figures::from(explanation.answer);
        ReasonFigures([
            f[0],
            f[1],
            f[2],
            f[3],
            f[4],
            f[5],
            f[6],
            f[7],
            u64::from(explanation.vertices),
            u64::from(explanation.edges),
        ])
    }
}

// A planner call with the reason for "no route". One by one, as the C interface has them.
#[unsafe(no_mangle)]
pub extern "C" fn secondcoop_explain<'a>(
    bytes: &[u8],
    start: u32,
    goal: u32,
    barred: u32,
    anchor: &[u32],
    guides: &[u32],
    guide_count: u32,
    schedule: &'a [u32],
    house: &'a [u32],
    budget: u32,
    route: &mut [u32],
    log: &mut [u32],
    work: &mut [u32],
    wide: &mut [u64],
    places: &mut [u32],
    lanes: &mut [u32],
    figures: &mut [u64; 10],
)
    ensures { ExportedReason (inquiry_of (call_of bytes.now start goal barred anchor.now guides.now guide_count schedule.now house.now budget (memory_of route.old log.old work.old wide.old)) places.old lanes.old) figures.new (memory_of route.new log.new work.new wide.new) places.new lanes.new }
{
    let call = Call {
        bytes,
        start,
        goal,
        barred,
        anchor,
        guides,
        guide_count,
        schedule,
        default_schedule: house,
        budget,
    };
    let explanation = explanation::explain(&call, route, log, work, wide, places, lanes);
    let ReasonFigures(shown) = ReasonFigures::from(explanation);
    *figures = shown;
}

// The lines of a job's explanation.
#[unsafe(no_mangle)]
pub extern "C" fn secondcoop_explain_text(job: &[u8], text: &mut [u8]) -> usize
    ensures { Texts (explain_text job.now) text.old result text.new }
{
    bench_text::explain_text(job, text)
}
