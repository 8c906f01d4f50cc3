// A stored vertex, in the heaps of one table after another.
ghost use Rattle.queue.specs.Queues.{StoringIn, StoredIn, StoredGuides, StoringGuides};
ghost use Rattle.queue.specs.Methods.{memory, Same};

use crate::Queues;
use search::Vertex;

impl Queues<'_> {
    // Vertex s is stored as x: its entry in the heap of table i.
    pub(crate) fn store_in(&mut self, i: u32, s: u32, x: Vertex)
        requires { StoringIn self.old.vertices self.old.tables self.old.anchor.now self.old.guides.now i s x (memory self.old) }
        ensures same { Same self.old self.new }
        ensures stored { StoredIn self.old.vertices self.old.tables self.old.anchor.now self.old.guides.now i s x (memory self.old) (memory self.new) }
    {
        let offer = self.offer(i, s, x);
        self.update(i, s, offer);
    }

    // The same in the heaps of all guides, after the anchor's.
    pub(crate) fn store_guides(&mut self, s: u32, x: Vertex)
        requires { StoringGuides self.old.vertices self.old.tables self.old.anchor.now self.old.guides.now s x (memory self.old) }
        ensures same { Same self.old self.new }
        ensures stored { StoredGuides self.old.vertices self.old.tables self.old.anchor.now self.old.guides.now s x (memory self.old) (memory self.new) }
    {
        for i in 1..self.tables.guides + 1 {
            self.store_in(i, s, x);
        }
    }
}
