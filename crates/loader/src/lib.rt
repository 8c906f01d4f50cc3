// The graph loaded into work memory from the bytes of a plan that was checked.
#![tactic(auto)]

ghost use Rattle.std.specs.Prelude.{◌≡◌, ◌<◌, ◌≤◌, length, Ok};
ghost use Rattle.graph.specs.Refusal.{size_of};
ghost use Rattle.graph.specs.Plan.{first_at, next_edge, edges_from, sizes};
ghost use Rattle.graph.specs.Lists.{over, edges_in};
ghost use Rattle.plan_check.specs.Past.{HasNext, cursor_past};
ghost use Rattle.workspace.specs.Layout.{base, graph_words};
ghost use Rattle.loader.specs.Stored.{edge_stored};

use graph::{Cursor, Size};
use plan_check::cursor;
use workspace::edge_words;

// Edge j, and the cursor past it.
fn load_edge(bytes: &[u8], work: &mut [u32], z: Size, cursor: Cursor, j: u32) -> Cursor
    requires z_in_bounds { (base z ≤ length work.old) × (j < z.edges) }
    requires has_next { HasNext z.vertices bytes.now cursor }
    ensures value { result ≡ cursor_past cursor (next_edge z.vertices bytes.now cursor) }
    ensures work_after { work.new ≡ edge_stored z cursor.tail j work.old (next_edge z.vertices bytes.now cursor) }
{
    let Ok((edge, next)) = cursor::next_checked(cursor, bytes, z.vertices) else {
        return cursor;
    };
    let before = cursor.tail as usize;
    let tail = edge.tail as usize;
    // the vertices after the tail before, up to this one, begin with edge j
    work[before + 1..=tail].fill(j);
    edge_words::put_edge(work, z, j, edge);
    next
}

// The first edges, heads, costs and classes of the whole plan, whose first edge stands at an offset.
// Words and a size, no Graph: there is one only after this.
pub fn load_graph(bytes: &[u8], work: &mut [u32], z: Size, at: usize)
    requires at_value { sizes (edges_from z.vertices z.edges bytes.now (first_at at)) ≡ Ok (size_of z.vertices z.edges) }
    requires z_in_bounds { base z ≤ length work.old }
    ensures { work.new ≡ over (graph_words z.vertices (edges_in (edges_from z.vertices z.edges bytes.now (first_at at)))) work.old }
{
    work[0] = 0;
    let mut cursor = cursor::first(at);
    for j in 0..z.edges {
        cursor = load_edge(bytes, work, z, cursor, j);
    }
    let last = cursor.tail as usize;
    let vertices = z.vertices as usize;
    // the vertices after the last tail have no edges
    work[last + 1..=vertices].fill(z.edges);
}
