// A binary heap of the vertices that a table is offered, in lent words: where each stands, then the entries, key · 4,096 + vertex.
#![tactic(auto)]

mod placing;
mod sift_down;
mod sift_up;
mod words;

ghost use Rattle.std.specs.Prelude.{◌≡◌, ◌+◌, ◌*◌, ◌≤◌, ◌<◌, length};
ghost use Rattle.heap.specs.Words.{entry_at, cleared};
ghost use Rattle.heap.specs.Heap.{Safe};

// A heap of so many entries, of vertices below `vertices`.
#[derive(Drop)]
pub struct Heap<'a> {
    pub words: &'a mut [u32],
    pub vertices: u32,
    pub count: u32,
    ghost safe: { Safe vertices count words.now },
}

// No vertex is in the heap, in any words.
pub fn clear(w: &mut [u32], v: u32)
    requires { v ≤ length w.old }
    ensures { w.new ≡ cleared v w.old }
{
    w[..v as usize].fill(words::NOWHERE);
}

// Entry j of the words w.
pub fn entry(w: &[u32], v: u32, j: u32) -> u64
    requires { v + 2 * j + 1 < length w.now }
    ensures { result ≡ entry_at v w.now j }
{
    let k = (v as usize) + 2 * (j as usize);
    let low = u64::from(w[k]);
    let high = u64::from(w[k + 1]);
    low + 4294967296 * high
}

impl Heap<'_> {
    ghost use Rattle.std.specs.Option.{is_some, unwrap_or};
    ghost use Rattle.heap.specs.Words.{pos_at, position_at, updated, counted};
    ghost use Rattle.heap.specs.Heap.{Updatable};
    ghost use Rattle.heap.specs.Methods.{Kept};

    // Where vertex s stands, if it is in the heap.
    fn position(&self, s: u32) -> Option<u32>
        requires { s < self.now.vertices }
        ensures { result ≡ position_at self.now.words.now s }
    {
        let j = self.words[s as usize];
        if j == words::NOWHERE { None } else { Some(j) }
    }

    // Vertex s has this entry in the heap now, no dearer than before; or, without one, is not in it.
    pub fn update(&mut self, s: u32, entry: Option<u64>)
        requires { Updatable self.old.vertices self.old.count s (is_some entry) (unwrap_or entry 0) self.old.words.now }
        ensures kept { Kept self.old self.new }
        ensures words { self.new.words.now ≡ updated self.old.vertices self.old.count s (is_some entry) (unwrap_or entry 0) self.old.words.now }
        ensures count { self.new.count ≡ counted self.old.count s (is_some entry) self.old.words.now }
    {
        match (entry, self.position(s)) {
            (Some(e), Some(j)) => self.rise(j, e),
            (Some(e), None) => {
                let n = self.count;
                self.rise(n, e);
                self.count = n + 1;
            }
            (None, Some(j)) => self.remove(j, s),
            (None, None) => {}
        }
    }
}
