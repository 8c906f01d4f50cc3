// Vertices read from memory and stored in it; predecessors read alone.
ghost use Rattle.std.specs.Prelude.{◌≡◌, ◌<◌, set};
ghost use Rattle.search.specs.Job.{at};
ghost use Rattle.workspace.specs.Layout.{WorkRoom, pred_of};
ghost use Rattle.workspace.specs.Space.{vertices_seen, space_vertices, Stores};

use crate::{Graph, Size, Vertices, Workspace, words};
use search::Vertex;

impl<'a> Vertices<'a> {
    // Vertex p, as its two words and two numbers say.
    pub fn vertex(self, p: u32) -> Vertex
        requires { p < self.size.vertices }
        ensures { result ≡ at (vertices_seen self.entry) p }
    {
        let i = 2 * p as usize;
        let o = words::base(self.size) + i;
        let pred = self.work[o];
        let marks = self.work[o + 1];
        let g = self.wide[i];
        let v = self.wide[i + 1];
        Vertex {
            g,
            v,
            pred,
            inad: words::has_mark(1, marks),
            anchor: words::has_mark(2, marks),
            opened: words::has_mark(4, marks),
            incons: words::has_mark(8, marks),
        }
    }
}

// The predecessor of x, also where x is no vertex.
pub fn pred(work: &[u32], z: Size, x: u32) -> u32
    requires { WorkRoom z work.now }
    ensures { result ≡ pred_of z work.now x }
{
    if x < z.vertices {
        return work[words::base(z) + 2 * x as usize];
    }
    Vertex::NO_PRED
}

// The predecessor beside a graph. The function above asks only for room, and docs/PROMISES.md names it: it stays.
impl<'a> Graph<'a> {
    pub fn pred(self, x: u32) -> u32
        ensures { result ≡ pred_of self.entry.size self.entry.words.now x }
    {
        pred(self.words, self.size, x)
    }
}

impl<'a> Workspace<'a> {
    // The vertices that it holds.
    pub fn vertices(&self) -> Vertices<'_>
        ensures work { result.work.now ≡ self.now.work.now }
        ensures wide { result.wide.now ≡ self.now.wide.now }
        ensures size { result.size ≡ self.now.size }
    {
        Vertices {
            work: self.work,
            wide: self.wide,
            size: self.size,
        }
    }

    // Vertex p.
    pub fn vertex(&self, p: u32) -> Vertex
        requires { p < self.now.size.vertices }
        ensures { result ≡ at (space_vertices self.now) p }
    {
        self.vertices().vertex(p)
    }

    // Vertex p becomes x.
    pub fn set_vertex(&mut self, p: u32, x: Vertex)
        requires { p < self.old.size.vertices }
        ensures { Stores (set (space_vertices self.old) p x) self.old self.new }
    {
        words::put(self.work, self.wide, self.size, p, x);
    }
}
