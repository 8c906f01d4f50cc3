// An entry placed where the order wants it, and one removed. That an entry's place is below the count, and its vertex below
// V, is asked here as below: it is said of a number and a heap, and no type of one of them can hold it.
ghost use Rattle.std.specs.Prelude.{◌≡◌, ◌-◌, ◌<◌};
ghost use Rattle.heap.specs.Words.{vertex_of, placed, removed};
ghost use Rattle.heap.specs.Methods.{Same, Kept};

use crate::{Heap, words};

impl Heap<'_> {
    // e stands at entry j, or where the order wants it.
    pub(crate) fn place(&mut self, j: u32, e: u64)
        requires { (j < self.old.count) × (vertex_of e < self.old.vertices) }
        ensures same { Same self.old self.new }
        ensures words { self.new.words.now ≡ placed self.old.vertices self.old.count j e self.old.words.now }
    {
        if self.cheaper(j, e) {
            self.rise(j, e);
        } else {
            self.sink(words::LEVELS, j, e);
        }
    }

    // Entry j, of vertex s, goes: the last one takes its place, if it is another one.
    pub(crate) fn remove(&mut self, j: u32, s: u32)
        requires { (j < self.old.count) × (s < self.old.vertices) }
        ensures kept { Kept self.old self.new }
        ensures words { self.new.words.now ≡ removed self.old.vertices (self.old.count - 1) j s self.old.words.now }
        ensures count { self.new.count ≡ self.old.count - 1 }
    {
        let last = self.count - 1;
        self.words[s as usize] = words::NOWHERE;
        self.count = last;
        if j != last {
            let e = self.entry(last);
            self.place(j, e);
        }
    }
}
