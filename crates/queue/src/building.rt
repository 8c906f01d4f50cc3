// The heaps of all tables at a round's beginning: cleared, then vertex by vertex.
ghost use Rattle.std.specs.Prelude.{suc, ◌≡◌, ◌*◌, ◌<◌, ◌≤◌, length};
ghost use Rattle.workspace.specs.Layout.{mem};
ghost use Rattle.workspace.specs.Space.{vertices_seen};
ghost use Rattle.queue.specs.Parts.{Cleared};
ghost use Rattle.queue.specs.Queues.{first_only, Queues as Queued, Narrow, Entering};
ghost use Rattle.queue.specs.Methods.{memory, Same};

use crate::Queues;
use search::Vertex;
use workspace::Vertices;

// No code: says of lent numbers that they have 32 bits, which the proof knows of a parameter and not of a field.
pub fn bound(anchor: &[u32], guides: &[u32], v: u32)
    ensures { Narrow v anchor.now guides.now }
{}

impl Queues<'_> {
    // The heaps of the anchor and of so many guides have no entry.
    pub(crate) fn clear_all(&mut self)
        requires { (self.old.tables.guides ≤ 8) × (self.old.tables.guides < length self.old.counts.now)
            × (suc self.old.tables.guides * (3 * self.old.vertices) ≤ length self.old.heap.now) }
        ensures same { Same self.old self.new }
        ensures cleared { Cleared self.old.vertices (suc self.old.tables.guides) (memory self.new) }
    {
        for i in 0..self.tables.guides + 1 {
            self.clear(i);
        }
    }

    // Vertex s is entered into the heaps of the vertices before it.
    pub(crate) fn enter(&mut self, vertices: Vertices<'_>, s: u32)
        requires { (self.old.vertices ≡ vertices.size.vertices) × Entering vertices.size self.old.tables self.old.anchor.now self.old.guides.now (mem vertices.work.now vertices.wide.now) s (memory self.old) }
        ensures same { Same self.old self.new }
        ensures queues { Queued vertices.entry.size.vertices self.old.tables self.old.anchor.now self.old.guides.now (first_only (suc s) (vertices_seen vertices.entry)) (memory self.new) }
    {
        let x = vertices.vertex(s);
        self.store(s, Vertex::fresh(), x);
    }
}
