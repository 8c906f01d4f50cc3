// The words of a heap: an entry read, and one put into a slot.
ghost use Rattle.std.specs.Prelude.{◌≡◌, ◌+◌, ◌*◌, ◌<◌, length};
ghost use Rattle.heap.specs.Words.{vertex_of, entry_at, put};
ghost use Rattle.heap.specs.Methods.{Same};

use crate::Heap;

// The position of a vertex that the heap does not hold: an Option takes two words, and a position has one.
pub const NOWHERE: u32 = 4294967295;

// As many levels as are below the first of 4,096 entries.
pub const LEVELS: u32 = 12;

impl Heap<'_> {
    // Entry j.
    pub(crate) fn entry(&self, j: u32) -> u64
        requires { self.now.vertices + 2 * j + 1 < length self.now.words.now }
        ensures { result ≡ entry_at self.now.vertices self.now.words.now j }
    {
        crate::entry(self.words, self.vertices, j)
    }

    // Entry j becomes e, and its vertex stands there.
    pub(crate) fn put(&mut self, j: u32, e: u64)
        requires { (self.old.vertices + 2 * j + 1 < length self.old.words.now) × (vertex_of e < self.old.vertices) }
        ensures same { Same self.old self.new }
        ensures words { self.new.words.now ≡ put self.old.vertices self.old.words.now j e }
    {
        let k = (self.vertices as usize) + 2 * (j as usize);
        let s = (e % 4096) as usize;
        self.words[k] = (e % 4294967296) as u32;
        self.words[k + 1] = (e / 4294967296) as u32;
        self.words[s] = j;
    }
}
