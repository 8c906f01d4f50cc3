// The words of edges in work memory: the first edge of a vertex read; an edge read, by its tail and number or by its
// number alone, and put.
ghost use Rattle.std.specs.Prelude.{◌≡◌, ◌<◌, ◌≤◌, suc, length};
ghost use Rattle.graph.specs.Limits.{max_class};
ghost use Rattle.workspace.specs.Layout.{base, first_of, edge_at, edge_put, Numbered, Whole};

use crate::{Graph, Workspace};
use graph::{Edge, Size};

// The number of the first edge of vertex t; for t = V the count of edges.
pub fn first_edge(work: &[u32], z: Size, t: u32) -> u32
    requires { (base z ≤ length work.now) × (t ≤ z.vertices) }
    ensures { result ≡ first_of work.now t }
{
    work[t as usize]
}

// Edge j, of the tail t.
pub fn edge(work: &[u32], z: Size, t: u32, j: u32) -> Edge
    requires { (base z ≤ length work.now) × (j < z.edges) }
    ensures { result ≡ edge_at z work.now t j }
{
    let edges = z.edges as usize;
    let at = z.vertices as usize + 1 + j as usize;
    Edge {
        tail: t,
        head: work[at],
        cost: work[at + edges],
        class: work[at + 2 * edges],
    }
}

// The tail of edge j: the first one whose edges end after it.
fn tail(work: &[u32], z: Size, j: u32) -> u32
    requires { Whole z work.now × (j < z.edges) }
    ensures { (result < z.vertices) × (first_of work.now result ≤ j) × (j < first_of work.now (suc result)) }
{
    let ends = &work[1..z.vertices as usize + 1];
    ends.partition_point(|end| *end <= j) as u32
}

// Edge j of all edges, in plan order.
pub fn numbered(work: &[u32], z: Size, j: u32) -> Edge
    requires { Whole z work.now × (j < z.edges) }
    ensures { Numbered z work.now j result }
{
    let t = tail(work, z, j);
    edge(work, z, t, j)
}

// Head, cost and class of edge j.
pub fn put_edge(work: &mut [u32], z: Size, j: u32, edge: Edge)
    requires { (base z ≤ length work.old) × (j < z.edges) }
    ensures { work.new ≡ edge_put z j edge work.old }
{
    let edges = z.edges as usize;
    let at = z.vertices as usize + 1 + j as usize;
    work[at] = edge.head;
    work[at + edges] = edge.cost;
    work[at + 2 * edges] = edge.class;
}

// The same of a graph. The functions above ask only for room, and docs/PROMISES.md names them: they stay.
impl<'a> Graph<'a> {
    pub fn first_edge(self, t: u32) -> u32
        requires { t ≤ self.size.vertices }
        ensures value { result ≡ first_of self.entry.words.now t }
        ensures within { 0 < self.entry.size.vertices → result ≤ self.entry.size.edges }
    {
        first_edge(self.words, self.size, t)
    }

    pub fn edge(self, t: u32, j: u32) -> Edge
        requires { j < self.size.edges }
        ensures value { result ≡ edge_at self.entry.size self.entry.words.now t j }
        ensures within { (result.head < self.entry.size.vertices) × (result.class ≤ max_class) }
    {
        edge(self.words, self.size, t, j)
    }
}

impl<'a> Workspace<'a> {
    // The graph that it holds.
    pub fn graph(&self) -> Graph<'_>
        ensures words { result.words.now ≡ self.now.work.now }
        ensures size { result.size ≡ self.now.size }
    {
        Graph {
            words: self.work,
            size: self.size,
        }
    }
}
