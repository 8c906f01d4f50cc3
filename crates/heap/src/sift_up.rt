// Sifting up: an entry that is cheaper than the one above it moves up.
ghost use Rattle.std.specs.Prelude.{◌≡◌, ◌≤◌, ◌<◌};
ghost use Rattle.heap.specs.Words.{vertex_of, entry_at, put, above, cheaper_at, levels, risen};
ghost use Rattle.heap.specs.Methods.{Same};

use crate::Heap;

impl Heap<'_> {
    // Whether e is cheaper than the entry above entry j.
    pub(crate) fn cheaper(&self, j: u32, e: u64) -> bool
        requires { j ≤ self.now.count }
        ensures { result ≡ cheaper_at self.now.vertices self.now.words.now j e }
    {
        j != 0 && e < self.entry((j - 1) / 2)
    }

    // The entry above entry j moves down to j; the slot that it leaves.
    fn move_down(&mut self, j: u32) -> u32
        requires { (j ≤ self.old.count) × (0 < j) × (j < self.old.vertices) }
        ensures same { Same self.old self.new }
        ensures words { self.new.words.now ≡ put self.old.vertices self.old.words.now j (entry_at self.old.vertices self.old.words.now (above j)) }
        ensures slot { result ≡ above j }
    {
        let above = (j - 1) / 2;
        let x = self.entry(above);
        self.put(j, x);
        above
    }

    // e stands at entry i, or above: an entry that is dearer moves down.
    // A `while`, no count by hand: entry by entry to the one above.
    pub(crate) fn rise(&mut self, i: u32, e: u64)
        requires { (i ≤ self.old.count) × (i < self.old.vertices) × (vertex_of e < self.old.vertices) }
        ensures same { Same self.old self.new }
        ensures words { self.new.words.now ≡ risen self.old.vertices levels i e self.old.words.now }
    {
        let mut j = i;
        while self.cheaper(j, e) {
            j = self.move_down(j);
        }
        self.put(j, e);
    }
}
