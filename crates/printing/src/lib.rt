// The answer of a planner call, with its route and log, or with the reason for "no route", as printed lines in a lent
// buffer.
#![tactic(auto)]

mod end_lines;
mod lines;
mod reason_lines;
pub mod refused;
mod writer;

ghost use Rattle.std.specs.Prelude.{◌≡◌, Ok};
ghost use Rattle.search.specs.Outcome.{figures};
ghost use Rattle.job.specs.Texts.{BenchSized};
ghost use Rattle.workspace.specs.Layout.{graph_of};
ghost use Rattle.printing.specs.Shown.{figures_by, Shown, Refuses, Explainable, ExplainedShown};

use graph::Size;
use refused::Refused;
use search::{Answer, Explanation};
use workspace::Graph;
use writer::Writer;

// A refusal: only its line. Of any number, not of a cause alone: docs/PROMISES.md names it.
pub fn put_refused(out: &mut [u8], number: u32, position: usize) -> usize
    ensures { Refuses number position out.old result out.new }
{
    let mut text = Writer::new(out);
    text.refused_line(number, position);
    text.at
}

// The text of a search, with route and log memory after it.
fn put_search(out: &mut [u8], answer: Answer, route: &[u32], log: &[u32]) -> usize
    requires { BenchSized route.now log.now }
    ensures { Shown (figures (Ok answer)) route.now log.now out.old result out.new }
{
    let mut text = Writer::new(out);
    match answer {
        Answer::Route(summary) => text.route(summary, route, log),
        Answer::NoRoute(turns) => text.no_route(b"no route turns ", turns, log),
        Answer::Unfinished(turns) => text.no_route(b"unfinished turns ", turns, log),
    }
    text.at
}

// The answer's text, with route and log memory after the call. A refusal may have any number, as `put_refused` takes it.
pub fn put_answer<R: Refused + Copy>(
    out: &mut [u8],
    answer: Result<Answer, R>,
    route: &[u32],
    log: &[u32],
) -> usize
    requires { BenchSized route.now log.now }
    ensures { Shown (figures_by R.shown answer) route.now log.now out.old result out.new }
{
    match answer {
        Ok(answer) => put_search(out, answer, route, log),
        Err(refused) => {
            let (number, position) = refused.show();
            put_refused(out, number, position)
        }
    }
}

// The text of an explanation whose call was not refused, with the call's answer.
fn put_reason<R: Refused + Copy>(
    out: &mut [u8],
    answer: Answer,
    explanation: Explanation<R>,
    route: &[u32],
    work: &[u32],
    z: Size,
    vertices: &[u32],
    edges: &[u32],
) -> usize
    requires { (explanation.answer ≡ Ok answer) × Explainable R.shown explanation z route.now work.now vertices.now edges.now }
    ensures { ExplainedShown R.shown explanation route.now (graph_of z work.now) vertices.now edges.now out.old result out.new }
{
    let mut text = Writer::new(out);
    match answer {
        Answer::Route(summary) => text.route_end(summary, route),
        Answer::NoRoute(turns) => {
            let graph = Graph {
                words: work,
                size: z,
            };
            text.reason(turns, explanation, graph, vertices, edges)
        }
        Answer::Unfinished(turns) => text.turns_line(b"unfinished turns ", turns),
    }
    text.at
}

// An explanation's text, with route and work memory and both lists after it, the C interface's; a graph is there only
// after the answer `no route`.
pub fn put_explanation<R: Refused + Copy>(
    out: &mut [u8],
    explanation: Explanation<R>,
    route: &[u32],
    work: &[u32],
    z: Size,
    vertices: &[u32],
    edges: &[u32],
) -> usize
    requires { Explainable R.shown explanation z route.now work.now vertices.now edges.now }
    ensures { ExplainedShown R.shown explanation route.now (graph_of z work.now) vertices.now edges.now out.old result out.new }
{
    match explanation.answer {
        Ok(answer) => put_reason(out, answer, explanation, route, work, z, vertices, edges),
        Err(refused) => {
            let (number, position) = refused.show();
            put_refused(out, number, position)
        }
    }
}
