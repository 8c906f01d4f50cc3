// The queues of a search: for each table (heuristic) a heap of the vertices that are offered to it, in lent words; the
// first of one of them, a vertex stored in all of them, and all of them made anew.
#![tactic(auto)]

mod building;
mod keys;
mod parts;
mod storing;

ghost use Rattle.queue.specs.Parts.{heaps, Tabled};
ghost use Rattle.queue.specs.Table.{top_in};
ghost use Rattle.queue.specs.Queues.{Storing, Stored, Building, Queues as Queued};
ghost use Rattle.queue.specs.Methods.{memory, Same, Made};
ghost use Rattle.workspace.specs.Layout.{mem};
ghost use Rattle.workspace.specs.Space.{vertices_seen};
ghost use Rattle.std.specs.Prelude.{◌≤◌, get_or, ◌≡◌};

use search::Vertex;
use workspace::Vertices;

// The tables, the anchor's and one for each of so many guides, and the factor W1 of all their keys.
#[derive(Clone, Copy)]
pub struct Tables {
    pub guides: u32,
    pub w1: u32,
}

// Heap memory and a count of entries for each table, over so many vertices, and the numbers of the anchor and of the guides.
#[derive(Drop)]
pub struct Queues<'a> {
    pub heap: &'a mut [u32],
    pub counts: &'a mut [u32],
    pub anchor: &'a [u32],
    pub guides: &'a [u32],
    pub vertices: u32,
    pub tables: Tables,
}

// The first entry of table i's heap, over v vertices: its least key, and the vertex.
pub fn top(heap: &[u32], counts: &[u32], v: u32, i: u32) -> Option<(u64, u32)>
    requires { Tabled v i (heaps heap.now counts.now) × (get_or counts.now i 0 ≤ v) }
    ensures { result ≡ top_in v i (heaps heap.now counts.now) }
{
    if counts[i as usize] == 0 {
        return None;
    }
    let words = 3 * v as usize;
    let from = i as usize * words;
    let e = heap::entry(&heap[from..from + words], v, 0);
    Some((e / 4096, (e % 4096) as u32))
}

impl Queues<'_> {
    // Vertex s, which was `old`, is stored as x: open neither before nor after, it has no entry in any heap; with the
    // guide mark before and after, none but in the anchor's.
    pub fn store(&mut self, s: u32, old: Vertex, x: Vertex)
        requires { Storing self.old.vertices self.old.tables self.old.anchor.now self.old.guides.now s old x (memory self.old) }
        ensures same { Same self.old self.new }
        ensures stored { Stored self.old.vertices self.old.tables self.old.anchor.now self.old.guides.now s old x (memory self.old) (memory self.new) }
    {
        if old.opened | x.opened {
            self.store_in(0, s, x);
            if !(old.inad & x.inad) {
                self.store_guides(s, x);
            }
        }
    }

    // The heaps of all tables, over any words, for the vertices in memory.
    pub fn build(&mut self, vertices: Vertices<'_>)
        requires { Building vertices.size self.old.tables self.old.anchor.now self.old.guides.now (mem vertices.work.now vertices.wide.now) (memory self.old) }
        ensures made { Made vertices.entry.size.vertices self.old self.new }
        ensures queues { Queued vertices.entry.size.vertices self.old.tables self.old.anchor.now self.old.guides.now (vertices_seen vertices.entry) (memory self.new) }
    {
        building::bound(self.anchor, self.guides, vertices.size.vertices);
        self.vertices = vertices.size.vertices;
        self.clear_all();
        for s in 0..self.vertices {
            self.enter(vertices, s);
        }
    }
}
