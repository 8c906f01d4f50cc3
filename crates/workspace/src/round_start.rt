// The vertices in memory at first, and at a round's beginning.
ghost use Rattle.std.specs.Prelude.{◌≡◌, ◌<◌, ◌≤◌, ◌*◌, length, map};
ghost use Rattle.search.specs.Job.{origin, at_first};
ghost use Rattle.search.specs.Rounds.{reopened};
ghost use Rattle.workspace.specs.Layout.{mem, Room, Loaded, Becomes};
ghost use Rattle.workspace.specs.Space.{space_vertices, Stores, Begins};

use crate::{Workspace, words};
use graph::Size;
use search::Vertex;

// The start at first: its g is 0, and it is open.
fn origin() -> Vertex
    ensures { result ≡ origin }
{
    Vertex {
        g: 0,
        opened: true,
        ..Vertex::fresh()
    }
}

// A vertex at a round's beginning: open where it was held or open, without marks.
fn reopened(x: Vertex) -> Vertex
    ensures { result ≡ reopened x }
{
    Vertex {
        inad: false,
        anchor: false,
        opened: x.incons | x.opened,
        incons: false,
        ..x
    }
}

// The vertices at first, over any words and numbers.
pub fn at_first(work: &mut [u32], wide: &mut [u64], z: Size, start: u32)
    requires { Room z (mem work.old wide.old) × (start < z.vertices) }
    ensures { Becomes z (at_first z.vertices start) (mem work.old wide.old) (mem work.new wide.new) }
{
    for p in 0..z.vertices {
        words::put(work, wide, z, p, Vertex::fresh());
    }
    words::put(work, wide, z, start, origin());
}

impl<'a> Workspace<'a> {
    // Lent memory, whose work memory holds a graph, with the vertices at first.
    pub fn begin(work: &'a mut [u32], wide: &'a mut [u64], size: Size, start: u32) -> Workspace<'a>
        requires { Loaded size work.old × (2 * size.vertices ≤ length wide.old) × (start < size.vertices) }
        ensures { Begins size start work.entry wide.entry result }
    {
        at_first(work, wide, size, start);
        Workspace { work, wide, size }
    }

    // All vertices at a round's beginning.
    pub fn reopen(&mut self)
        ensures { Stores (map reopened (space_vertices self.old)) self.old self.new }
    {
        for p in 0..self.size.vertices {
            let x = self.vertex(p);
            self.set_vertex(p, reopened(x));
        }
    }
}
