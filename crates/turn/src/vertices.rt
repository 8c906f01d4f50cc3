// A vertex by value: its key, and what a turn makes of it.
ghost use Rattle.std.specs.Prelude.{◌≡◌, ◌≤◌, ◌+◌, ltb};
ghost use Rattle.search.specs.Turn.{key, marked, lowered};
ghost use Rattle.search.specs.Bounds.{max_factor, max_g, max_key};

use search::Vertex;

// The key of a vertex, where h is the heuristic's number for it.
#[tactic(auto, unfolding(search::specs::Turn::key))]
pub fn key(x: Vertex, w1: u32, h: u32) -> u64
    requires { (w1 ≤ max_factor) × (x.g ≤ max_g) }
    ensures { (result ≡ key w1 h x) × (result ≤ max_key) }
{
    100 * x.g + u64::from(w1) * u64::from(h)
}

// A vertex expanded for heuristic i: not open, its g noted, marked for that search.
#[tactic(auto, unfolding(search::specs::Turn::marked))]
pub fn marked(x: Vertex, i: u32) -> Vertex
    ensures { result ≡ marked i x }
{
    Vertex {
        v: x.g,
        inad: i != 0 || x.inad,
        anchor: i == 0 || x.anchor,
        opened: false,
        ..x
    }
}

// Whether g and the cost of an edge are below `old`, without a sum that could overflow.
pub fn undercuts(g: u64, cost: u32, old: u64) -> bool
    ensures { result ≡ ltb (g + cost) old }
{
    let c = u64::from(cost);
    c < old && g < old - c
}

// The head of an edge of s at its lower cost c: held if it has the anchor mark, else open.
#[tactic(auto, unfolding(search::specs::Turn::lowered))]
pub fn lowered(x: Vertex, c: u64, s: u32) -> Vertex
    ensures { result ≡ lowered c s x }
{
    Vertex {
        g: c,
        pred: s,
        opened: !x.anchor,
        incons: x.anchor,
        ..x
    }
}
