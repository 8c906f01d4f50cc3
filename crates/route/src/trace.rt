// The trace of predecessors from the goal: counted and costed in one pass, without memory.
ghost use Rattle.std.specs.Prelude.{◌≡◌, ◌*◌, ◌<◌};
ghost use Rattle.workspace.specs.Layout.{pred_of};
ghost use Rattle.workspace.specs.Space.{graph_edges};
ghost use Rattle.route.specs.Trace.{traced_in, measured};
ghost use Rattle.route.specs.Costs.{plus, extended, Payable, AtMost, max_word};

use crate::edges;
use workspace::Graph;

// Vertices that a trace has so far: the first of them, their number, and what they are over the edges.
#[derive(Clone, Copy)]
pub struct Traced {
    pub first: u32,
    pub length: u32,
    pub cost: Option<u64>,
}

// The cost of an edge and of a walk after it.
#[tactic(auto, unfolding(crate::specs::Costs::plus))]
fn plus(edge: Option<u64>, rest: Option<u64>) -> Option<u64>
    requires { AtMost max_word edge × AtMost (max_word * max_word) rest }
    ensures { result ≡ plus edge rest }
{
    Some(edge? + rest?)
}

// One vertex further back: the predecessor of the first one.
fn back(graph: Graph<'_>, t: Traced) -> Traced
    requires { (t.length < graph.size.vertices) × Payable t }
    ensures { (result ≡ extended (graph_edges graph.entry) (pred_of graph.entry.size graph.entry.words.now t.first) t) × Payable result }
{
    let pred = graph.pred(t.first);
    let edge = edges::edge_cost(graph, pred, t.first);
    Traced {
        first: pred,
        length: t.length + 1,
        cost: plus(edge, t.cost),
    }
}

// The trace from the goal, until it has the start or V vertices.
// A `while`, no count by hand: how many vertices a trace has is one of its own figures.
pub fn from_goal(graph: Graph<'_>, start: u32, goal: u32) -> Traced
    requires { goal < graph.size.vertices }
    ensures { result ≡ measured (graph_edges graph.entry) (traced_in graph.entry.size graph.entry.words.now start goal) }
{
    let mut t = Traced {
        first: goal,
        length: 1,
        cost: Some(0),
    };
    while t.length < graph.size.vertices && t.first != start {
        t = back(graph, t);
    }
    t
}
