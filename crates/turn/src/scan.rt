// The least key of a heuristic over the vertices of the work memories.
ghost use Rattle.std.specs.Prelude.{◌≡◌, true, ◌<◌, ◌≤◌, length, get_or, None};
ghost use Rattle.search.specs.Job.{at};
ghost use Rattle.search.specs.Turn.{key, offered, better, least};
ghost use Rattle.search.specs.Bounds.{max_factor, max_key, Priced, Within};
ghost use Rattle.turn.specs.Lead.{best_of};
ghost use Rattle.workspace.specs.Space.{vertices_seen};

use crate::vertices;
use workspace::Vertices;

// A scan of the vertices for heuristic i: its numbers for them, and the factor of its keys.
#[derive(Clone, Copy)]
pub struct Scan<'a> {
    pub vertices: Vertices<'a>,
    pub i: u32,
    pub numbers: &'a [u32],
    pub w1: u32,
    ghost numbered: { vertices.size.vertices ≤ length numbers.now },
    ghost bounded: { w1 ≤ max_factor },
    ghost priced: { Priced (vertices_seen vertices) },
}

// The best of a scan so far, in two numbers: a key above all keys stands for nobody.
// An Option was tried: a turn over 4,096 vertices takes a sixth longer.
#[derive(Clone, Copy)]
struct Lead {
    key: u64,
    vertex: u32,
}

impl Lead {
    const NO_KEY: u64 = 18446744073709551615;

    fn none() -> Lead
        ensures { best_of result ≡ None }
    {
        Lead {
            key: Lead::NO_KEY,
            vertex: 0,
        }
    }

    // The better of it and vertex s with key k, which is offered.
    fn better(self, k: u64, s: u32) -> Lead
        requires { k ≤ max_key }
        ensures { best_of result ≡ better true k s (best_of self) }
    {
        if k < self.key {
            return Lead { key: k, vertex: s };
        }
        self
    }

    fn best(self) -> Option<(u64, u32)>
        ensures { result ≡ best_of self }
    {
        let key = self.key;
        if key == Lead::NO_KEY {
            return None;
        }
        Some((key, self.vertex))
    }
}

impl<'a> Scan<'a> {
    // The better of the best so far and vertex s, whose number is read only where it is open.
    fn consider(self, s: u32, lead: Lead) -> Lead
        requires { (s < self.vertices.size.vertices) × Within self.vertices.size.vertices (best_of lead) }
        ensures { (best_of result ≡ better (offered self.entry.i (get_or self.entry.numbers.now s 0) (at (vertices_seen self.entry.vertices) s)) (key self.entry.w1 (get_or self.entry.numbers.now s 0) (at (vertices_seen self.entry.vertices) s)) s (best_of lead)) × Within self.entry.vertices.size.vertices (best_of result) }
    {
        let x = self.vertices.vertex(s);
        if x.opened {
            let h = self.numbers[s as usize];
            if x.is_offered(self.i, h) {
                return lead.better(vertices::key(x, self.w1, h), s);
            }
        }
        lead
    }

    // The best vertex.
    pub fn least(self) -> Option<(u64, u32)>
        ensures { (result ≡ least self.entry.i self.entry.w1 self.entry.numbers.now (vertices_seen self.entry.vertices)) × Within self.entry.vertices.size.vertices result }
    {
        let mut lead = Lead::none();
        for s in 0..self.vertices.size.vertices {
            lead = self.consider(s, lead);
        }
        lead.best()
    }
}
