// The key of a vertex, and whether a table is offered it.
ghost use Rattle.std.specs.Prelude.{◌≡◌, ◌≤◌, ◌*◌, ◌<◌, T, length, get_or};
ghost use Rattle.search.specs.Turn.{offered, key};
ghost use Rattle.search.specs.Bounds.{max_factor};
ghost use Rattle.heap.specs.Words.{packed};
ghost use Rattle.queue.specs.Parts.{table_of};
ghost use Rattle.queue.specs.Table.{max_open_g};
ghost use Rattle.queue.specs.Offers.{Offers};

use crate::Queues;
use search::Vertex;

impl Queues<'_> {
    // The number of vertex s in table i.
    fn number(&self, i: u32, s: u32) -> u32
        requires { (s < self.now.vertices) × (self.now.vertices ≤ length self.now.anchor.now) × (i * self.now.vertices ≤ length self.now.guides.now) × (i ≤ 8) }
        ensures { result ≡ get_or (table_of self.now.vertices self.now.anchor.now self.now.guides.now i) s 0 }
    {
        if i == 0 {
            return self.anchor[s as usize];
        }
        let from = ((i - 1) as usize) * (self.vertices as usize);
        self.guides[from + (s as usize)]
    }

    // The entry of vertex s, which is x and open, where h is the heuristic's number for it.
    fn entry_for(&self, x: Vertex, h: u32, s: u32) -> u64
        requires { (self.now.tables.w1 ≤ max_factor) × (s < 4096) × (x.g ≤ max_open_g) }
        ensures { result ≡ packed (key self.now.tables.w1 h x) s }
    {
        (100 * x.g + u64::from(self.tables.w1) * u64::from(h)) * 4096 + u64::from(s)
    }

    // What table i is offered of vertex s, which is x: its entry. Its number is read only where it is open.
    pub(crate) fn offer(&self, i: u32, s: u32, x: Vertex) -> Option<u64>
        requires { (s < self.now.vertices) × (self.now.vertices ≤ length self.now.anchor.now) × (i * self.now.vertices ≤ length self.now.guides.now)
            × (i ≤ 8) × (self.now.tables.w1 ≤ max_factor) × (self.now.vertices ≤ 4096) × (T x.opened → x.g ≤ max_open_g) }
        ensures { Offers i self.now.tables.w1 (get_or (table_of self.now.vertices self.now.anchor.now self.now.guides.now i) s 0) x s result }
    {
        if !x.opened {
            return None;
        }
        let h = self.number(i, s);
        if x.is_offered(i, h) {
            Some(self.entry_for(x, h, s))
        } else {
            None
        }
    }
}
