// The words and numbers of one vertex: a mark in their sum, where its words begin, and a vertex put over any.
ghost use Rattle.std.specs.Prelude.{◌≡◌, ◌<◌};
ghost use Rattle.workspace.specs.Layout.{base, has_mark, mem, Room, with_vertex};

use graph::Size;
use search::Vertex;

// Whether the mark k is part of a sum of marks.
pub fn has_mark(k: u32, marks: u32) -> bool
    requires { 0 < k }
    ensures { result ≡ has_mark k marks }
{
    marks / k % 2 == 1
}

// The first word of the vertices in work memory.
pub fn base(z: Size) -> usize
    ensures { result ≡ base z }
{
    z.vertices as usize + 1 + 3 * z.edges as usize
}

// Stores vertex p over any words and numbers.
pub fn put(work: &mut [u32], wide: &mut [u64], z: Size, p: u32, x: Vertex)
    requires { Room z (mem work.old wide.old) × (p < z.vertices) }
    ensures { mem work.new wide.new ≡ with_vertex z (mem work.old wide.old) p x }
{
    let i = 2 * p as usize;
    let o = base(z) + i;
    let marks = u32::from(x.inad)
        + 2 * u32::from(x.anchor)
        + 4 * u32::from(x.opened)
        + 8 * u32::from(x.incons);
    work[o] = x.pred;
    work[o + 1] = marks;
    wide[i] = x.g;
    wide[i + 1] = x.v;
}
