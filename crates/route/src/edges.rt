// The edge from one vertex to another, as work memory has it.
ghost use Rattle.std.specs.Prelude.{◌≡◌};
ghost use Rattle.search.specs.Walk.{edge_cost};
ghost use Rattle.workspace.specs.Space.{graph_edges};
ghost use Rattle.route.specs.Costs.{max_word, AtMost};

use workspace::Graph;

// The cost of the edge from a to b, also where a is no vertex.
pub fn edge_cost(graph: Graph<'_>, a: u32, b: u32) -> Option<u64>
    ensures { (result ≡ edge_cost (graph_edges graph.entry) a b) × AtMost max_word result }
{
    if graph.size.vertices <= a {
        return None;
    }
    for j in graph.first_edge(a)..graph.first_edge(a + 1) {
        let edge = graph.edge(a, j);
        if edge.head == b {
            return Some(u64::from(edge.cost));
        }
    }
    None
}
