// Expanding a vertex over the work memories.
ghost use Rattle.std.specs.Prelude.{◌<◌, [], ◌∷◌};
ghost use Rattle.search.specs.Permitted.{permitted};
ghost use Rattle.search.specs.Turn.{relax, relax_all, expand};
ghost use Rattle.workspace.specs.Layout.{edge_at};
ghost use Rattle.workspace.specs.Space.{space_vertices, space_edges, Stores};

use crate::vertices;
use graph::Edge;
use workspace::Workspace;

// Tries an edge of s, where g is that of s.
fn relax(space: &mut Workspace<'_>, s: u32, g: u64, e: Edge)
    requires { e.head < space.old.size.vertices }
    ensures { Stores (relax s g e (space_vertices space.old)) space.old space.new }
{
    let x = space.vertex(e.head);
    if vertices::undercuts(g, e.cost, x.g) {
        let c = g + u64::from(e.cost);
        space.set_vertex(e.head, vertices::lowered(x, c, s));
    }
}

// Tries edge j, of s, unless its class is barred; g is that of s.
fn try_edge(space: &mut Workspace<'_>, barred: u32, s: u32, g: u64, j: u32)
    requires { j < space.old.size.edges }
    ensures { Stores (relax_all s g (permitted barred (edge_at space.old.size space.old.work.now s j ∷ [])) (space_vertices space.old)) space.old space.new }
{
    let e = space.graph().edge(s, j);
    if !barring::bars(barred, e.class) {
        relax(space, s, g, e);
    }
}

// Tries the edges of s that are not barred, where g is that of s.
fn relax_all(space: &mut Workspace<'_>, barred: u32, s: u32, g: u64)
    requires { s < space.old.size.vertices }
    ensures { Stores (relax_all s g (permitted barred (space_edges space.old)) (space_vertices space.old)) space.old space.new }
{
    let graph = space.graph();
    let first = graph.first_edge(s);
    let end = graph.first_edge(s + 1);
    for j in first..end {
        try_edge(space, barred, s, g, j);
    }
}

// Expands s for heuristic i: s is marked, and its edges that are not barred are tried in plan order.
pub fn expand(space: &mut Workspace<'_>, barred: u32, i: u32, s: u32)
    requires { s < space.old.size.vertices }
    ensures { Stores (expand (permitted barred (space_edges space.old)) i s (space_vertices space.old)) space.old space.new }
{
    let x = space.vertex(s);
    space.set_vertex(s, vertices::marked(x, i));
    relax_all(space, barred, s, x.g);
}
