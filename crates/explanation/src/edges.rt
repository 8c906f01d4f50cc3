// The barred edges that leave the vertices reached, and their list.
ghost use Rattle.std.specs.Prelude.{◌<◌, ◌≤◌, ◌≡◌, length};
ghost use Rattle.text.specs.Laid.{Put};
ghost use Rattle.search.specs.Reason as reason;
ghost use Rattle.search.specs.Reason.{numbers_of};
ghost use Rattle.workspace.specs.Layout.{first_of, edge_at, edges_at, Whole};
ghost use Rattle.workspace.specs.Space.{space_vertices, space_edges};
ghost use Rattle.explanation.specs.Listing.{Adds};

use crate::listed::Listed;
use crate::vertices;
use workspace::Workspace;

// Whether edge j, of the tail t, is barred and leads from a vertex that is reached to one that is not.
#[tactic(auto, unfolding(search::specs::Reason::leaves, workspace::specs::Layout::edge_at))]
fn leaves(space: &Workspace<'_>, barred: u32, t: u32, j: u32) -> bool
    requires { (t < space.now.size.vertices) × (j < space.now.size.edges) }
    ensures { result ≡ reason.leaves barred (space_vertices space.now) (edge_at space.now.size space.now.work.now t j) }
{
    let e = space.graph().edge(t, j);
    barring::bars(barred, e.class)
        && vertices::is_reached(space, t)
        && !vertices::is_reached(space, e.head)
}

// Lists the edges of the tail t that leave.
fn list_edges_of(space: &Workspace<'_>, barred: u32, t: u32, list: &mut Listed<'_>)
    requires { (t < space.now.size.vertices) × (list.old.count ≤ first_of space.now.work.now t) × (space.now.size.edges ≤ length list.old.words.now) }
    ensures { Adds (numbers_of (reason.leaves barred (space_vertices space.now)) (first_of space.now.work.now t) (edges_at space.now.size space.now.work.now t)) list.old list.new }
{
    let first = space.graph().first_edge(t);
    let end = space.graph().first_edge(t + 1);
    for j in first..end {
        if leaves(space, barred, t, j) {
            list.push(j);
        }
    }
}

// Lists the edges that leave, by their numbers among all edges, in plan order; how many they are.
pub fn list_edges(space: &Workspace<'_>, barred: u32, words: &mut [u32]) -> u32
    requires { Whole space.now.size space.now.work.now × (space.now.size.edges ≤ length words.old) }
    ensures { Put 0 (numbers_of (reason.leaves barred (space_vertices space.now)) 0 (space_edges space.now)) words.old result words.new }
{
    let mut list = Listed { words, count: 0 };
    for t in 0..space.size.vertices {
        list_edges_of(space, barred, t, &mut list);
    }
    list.count
}
