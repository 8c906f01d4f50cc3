// Sifting down: an entry that is dearer than one below it moves down, over at most so many levels.
ghost use Rattle.std.specs.Prelude.{◌≡◌, ◌≤◌, ◌<◌};
ghost use Rattle.heap.specs.Words.{vertex_of, child_of, lower_of, sunk};
ghost use Rattle.heap.specs.Heap.{Lower, Lowers};
ghost use Rattle.heap.specs.Methods.{Same};

use crate::Heap;

impl Heap<'_> {
    // The cheaper of the entries l and l + 1, the first if it is alone.
    fn child(&self, l: u32) -> u32
        requires { l < self.now.count }
        ensures { (result ≡ child_of self.now.vertices self.now.words.now self.now.count l) × (l ≤ result) × (result < self.now.count) }
    {
        if l + 1 < self.count && self.entry(l + 1) < self.entry(l) {
            l + 1
        } else {
            l
        }
    }

    // The slot below entry j that e goes down to, or j where e stays there or no level is left.
    fn lower(&self, levels: u32, j: u32, e: u64) -> u32
        requires { j < self.now.count }
        ensures { (result ≡ lower_of self.now.vertices levels self.now.count j e self.now.words.now) × Lower levels self.now.count j result }
    {
        if levels == 0 {
            return j;
        }
        let l = 2 * j + 1;
        if self.count <= l {
            return j;
        }
        let c = self.child(l);
        if self.entry(c) < e { c } else { j }
    }

    // Where e goes down from entry j: the entry there moves up to j. The slot, or j where e stays.
    fn move_up(&mut self, levels: u32, j: u32, e: u64) -> u32
        requires { j < self.old.count }
        ensures same { Same self.old self.new }
        ensures lowers { Lowers self.old.vertices levels self.old.count j e self.old.words.now self.new.words.now result }
    {
        let c = self.lower(levels, j, e);
        if c != j {
            let x = self.entry(c);
            self.put(j, x);
        }
        c
    }

    // e stands at entry j, or below: an entry that is cheaper moves up. At most so many levels are left, two of which a
    // call takes.
    pub(crate) fn sink(&mut self, levels: u32, j: u32, e: u64)
        requires { (j < self.old.count) × (vertex_of e < self.old.vertices) }
        ensures same { Same self.old self.new }
        ensures words { self.new.words.now ≡ sunk self.old.vertices levels self.old.count j e self.old.words.now }
    {
        let c = self.move_up(levels, j, e);
        if c == j {
            self.put(j, e);
            return;
        }
        let d = self.move_up(levels - 1, c, e);
        if d == c {
            self.put(c, e);
            return;
        }
        self.sink(levels - 2, d, e);
    }
}
