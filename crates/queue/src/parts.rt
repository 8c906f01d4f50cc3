// The heap of one table, in its part of heap memory.
ghost use Rattle.std.specs.Prelude.{◌≡◌, ◌≤◌, ◌+◌, ◌*◌, get_or, length};
ghost use Rattle.heap.specs.Words.{updated, counted, cleared};
ghost use Rattle.heap.specs.Heap.{Safe, Updatable};
ghost use Rattle.std.specs.Option.{is_some, unwrap_or};
ghost use Rattle.queue.specs.Parts.{part_of, with_table, Tabled};
ghost use Rattle.queue.specs.Methods.{memory, Same};

use crate::Queues;
use heap::Heap;

// In the heap of n entries in this part, vertex s has this entry now, or none; how many entries it has then.
// Tried within `update`: of a Heap made over a part of a field, the proof does not learn what is left there.
fn update_part(part: &mut [u32], v: u32, n: u32, s: u32, entry: Option<u64>) -> u32
    requires { Safe v n part.old × Updatable v n s (is_some entry) (unwrap_or entry 0) part.old }
    ensures { (part.new ≡ updated v n s (is_some entry) (unwrap_or entry 0) part.old) × (result ≡ counted n s (is_some entry) part.old) }
{
    let mut heap = Heap {
        words: part,
        vertices: v,
        count: n,
    };
    heap.update(s, entry);
    heap.count
}

impl Queues<'_> {
    // Where the words of table i begin and end.
    pub(crate) fn span(&self, i: u32) -> (usize, usize)
        requires { Tabled self.now.vertices i (memory self.now) }
        ensures { (result.0 ≡ i * (3 * self.now.vertices)) × (result.1 ≡ i * (3 * self.now.vertices) + 3 * self.now.vertices) }
    {
        let words = 3 * (self.vertices as usize);
        let from = (i as usize) * words;
        (from, from + words)
    }

    // In table i, vertex s has this entry now, or, without one, is not in its heap.
    pub(crate) fn update(&mut self, i: u32, s: u32, entry: Option<u64>)
        requires { Tabled self.old.vertices i (memory self.old)
            × Safe self.old.vertices (get_or self.old.counts.now i 0) (part_of self.old.vertices i self.old.heap.now)
            × Updatable self.old.vertices (get_or self.old.counts.now i 0) s (is_some entry) (unwrap_or entry 0) (part_of self.old.vertices i self.old.heap.now) }
        ensures same { Same self.old self.new }
        ensures table { memory self.new
            ≡ with_table self.old.vertices i
            (updated self.old.vertices (get_or self.old.counts.now i 0) s (is_some entry) (unwrap_or entry 0) (part_of self.old.vertices i self.old.heap.now))
            (counted (get_or self.old.counts.now i 0) s (is_some entry) (part_of self.old.vertices i self.old.heap.now)) (memory self.old) }
    {
        let (from, to) = self.span(i);
        let n = self.counts[i as usize];
        let m = update_part(&mut self.heap[from..to], self.vertices, n, s, entry);
        self.counts[i as usize] = m;
    }

    // Table i's heap has no entry.
    pub(crate) fn clear(&mut self, i: u32)
        requires { Tabled self.old.vertices i (memory self.old) }
        ensures same { Same self.old self.new }
        ensures table { memory self.new ≡ with_table self.old.vertices i (cleared self.old.vertices (part_of self.old.vertices i self.old.heap.now)) 0 (memory self.old) }
    {
        let (from, to) = self.span(i);
        heap::clear(&mut self.heap[from..to], self.vertices);
        self.counts[i as usize] = 0;
    }
}
