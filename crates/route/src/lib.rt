// The incumbent (the kept route) in route memory: what a finished round does to it, and its length.
#![tactic(auto)]

mod edges;
mod laying;
mod trace;

ghost use Rattle.std.specs.Prelude.{◌≡◌, ◌<◌, ◌≤◌, length, take, Some};
ghost use Rattle.search.specs.Rounds.{improves};
ghost use Rattle.route.specs.Trace.{traced_in, traced_cost};
ghost use Rattle.route.specs.Kept.{kept_cost, kept_route, up_to_end};

use search::Progress;
use workspace::Graph;

// Whether a route of the cost c becomes the incumbent: none is kept yet, or it is strictly cheaper.
fn improves(c: u64, p: Progress) -> bool
    ensures { result ≡ improves (Some c) p }
{
    p.rounds == 0 || c < p.cost
}

// A round is finished: the traced route is laid into route memory if it becomes the incumbent. The
// incumbent's cost after it.
pub fn keep(graph: Graph<'_>, route: &mut [u32], start: u32, goal: u32, p: Progress) -> u64
    requires { (goal < graph.size.vertices) × (graph.size.vertices ≤ length route.old) }
    ensures value { result ≡ kept_cost (traced_cost graph.entry.size graph.entry.words.now start goal) p }
    ensures route_after { route.new ≡ kept_route graph.entry.size.vertices (traced_cost graph.entry.size graph.entry.words.now start goal) (traced_in graph.entry.size graph.entry.words.now start goal) p route.old }
{
    let t = trace::from_goal(graph, start, goal);
    match t.cost {
        Some(c) if improves(c, p) => {
            laying::lay(graph, route, start, goal, t.length);
            c
        }
        _ => p.cost,
    }
}

// The number of vertices of the route at the front of v words.
pub fn route_length(route: &[u32], v: u32) -> u32
    requires { v ≤ length route.now }
    ensures { result ≡ length (up_to_end (take v route.now)) }
{
    route[..v as usize]
        .iter()
        .take_while(|&&x| x != laying::ROUTE_END)
        .count() as u32
}
