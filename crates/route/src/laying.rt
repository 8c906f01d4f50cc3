// A traced route laid into route memory, and its fill words.
ghost use Rattle.std.specs.Prelude.{◌≡◌, [], ◌≤◌, length};
ghost use Rattle.graph.specs.Lists.{over};
ghost use Rattle.search.specs.Outcome.{route_words};
ghost use Rattle.workspace.specs.Layout.{pred_of};
ghost use Rattle.route.specs.Trace.{traced_in};
ghost use Rattle.route.specs.Backs.{backs};

use workspace::Graph;

// In route memory, as the C interface has it: the word after the incumbent's last vertex, and those after it up to V words.
pub const ROUTE_END: u32 = 4294967295;

// n vertices, the last of them the goal, each the predecessor of the next, from the back.
fn put_all(graph: Graph<'_>, route: &mut [u32], goal: u32, n: u32)
    requires { n ≤ length route.old }
    ensures { route.new ≡ over (backs (pred_of graph.entry.size graph.entry.words.now) n goal []) route.old }
{
    let mut x = goal;
    for i in (0..n).rev() {
        route[i as usize] = x;
        x = graph.pred(x);
    }
}

// The trace from the goal, which has n vertices, and after it the words that end a route.
pub fn lay(graph: Graph<'_>, route: &mut [u32], start: u32, goal: u32, n: u32)
    requires { (graph.size.vertices ≤ length route.old) × (n ≡ length (traced_in graph.size graph.words.now start goal)) }
    ensures { route.new ≡ over (route_words graph.entry.size.vertices (traced_in graph.entry.size graph.entry.words.now start goal)) route.old }
{
    put_all(graph, route, goal, n);
    route[n as usize..graph.size.vertices as usize].fill(ROUTE_END);
}
