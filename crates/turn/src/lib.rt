// Step 1 over the work memories; and one turn: step 3, and the turn with its log word.
#![tactic(auto)]

mod expansion;
mod rules;
mod scan;
mod vertices;

ghost use Rattle.std.specs.Prelude.{◌≡◌, ◌<◌, ◌≤◌, ◌*◌, length, set};
ghost use Rattle.search.specs.Permitted.{permitted};
ghost use Rattle.search.specs.Job.{at};
ghost use Rattle.search.specs.Turn.{least, step_one, candidate, expand};
ghost use Rattle.search.specs.Bounds.{max_factor, DueWithin, max_key, Priced, Within};
ghost use Rattle.workspace.specs.Layout.{mem};
ghost use Rattle.workspace.specs.Space.{vertices_seen, space_words, space_vertices, space_edges, Stores};
ghost use Rattle.turn.specs.Asked.{sheet, choice_of, choice_word, Asked};

use scan::Scan;
use search::{Choice, Factors, Step};
use workspace::{Vertices, Workspace};

// Step 1: nothing is open, the round is finished, or a turn is due.
pub fn step_one(vertices: Vertices<'_>, anchor: &[u32], f: Factors, goal: u32) -> Step
    requires { (vertices.size.vertices ≤ length anchor.now) × (goal < vertices.size.vertices) × (f.w1 ≤ max_factor) × (f.w2 ≤ max_factor) × Priced (vertices_seen vertices) }
    ensures { (result ≡ step_one f.w2 (at (vertices_seen vertices.entry) goal).g (least 0 f.w1 anchor.now (vertices_seen vertices.entry))) × DueWithin vertices.entry.size.vertices result }
{
    let x = vertices.vertex(goal);
    let scan = Scan {
        vertices,
        i: 0,
        numbers: anchor,
        w1: f.w1,
    };
    rules::step_one(f.w2, x.g, scan.least())
}

// The best of inadmissible heuristic i; nobody where there are no guides.
fn candidate(vertices: Vertices<'_>, guides: &[u32], i: u32, w1: u32) -> Option<(u64, u32)>
    requires { (i * vertices.size.vertices ≤ length guides.now) × (w1 ≤ max_factor) × Priced (vertices_seen vertices) }
    ensures { (result ≡ candidate i w1 (sheet vertices.entry.size.vertices i guides.now) (vertices_seen vertices.entry)) × Within vertices.entry.size.vertices result }
{
    if i == 0 {
        return None;
    }
    let count = vertices.size.vertices as usize;
    let from = (i as usize - 1) * count;
    let numbers = &guides[from..from + count];
    let scan = Scan {
        vertices,
        i,
        numbers,
        w1,
    };
    scan.least()
}

// Step 3: what a turn of heuristic i expands, where the anchor's least key is m at vertex a. m's limit is asked: a key is
// a plain number, as it is in the rule.
fn choice(vertices: Vertices<'_>, guides: &[u32], f: Factors, m: u64, a: u32, i: u32) -> Choice
    requires { Asked vertices.size f guides.now (mem vertices.work.now vertices.wide.now) i × (m ≤ max_key) × (a < vertices.size.vertices) }
    ensures { (result ≡ choice_of vertices.entry.size f guides.now (mem vertices.entry.work.now vertices.entry.wide.now) m a i) × (result.vertex < vertices.entry.size.vertices) × (result.heuristic ≤ i) }
{
    let b = candidate(vertices, guides, i, f.w1);
    rules::choose(f.w2, m, a, i, b)
}

// Writes the turn after k others into the log, if it has room.
#[tactic(auto, unfolding(crate::specs::Asked::choice_word))]
fn note(log: &mut [u32], k: u32, c: Choice)
    requires { (c.vertex ≤ 65535) × (c.heuristic ≤ 8) }
    ensures { log.new ≡ set log.old k (choice_word c) }
{
    let at = k as usize;
    if at < log.len() {
        log[at] = c.vertex + 65536 * c.heuristic;
    }
}

// A turn of heuristic i, the one after k others, where the anchor's least key is m at vertex a, and the barred
// classes are given.
pub fn turn(
    space: &mut Workspace<'_>,
    log: &mut [u32],
    guides: &[u32],
    barred: u32,
    f: Factors,
    m: u64,
    a: u32,
    i: u32,
    k: u32,
)
    requires { Asked space.old.size f guides.now (space_words space.old) i × (m ≤ max_key) × (a < space.old.size.vertices) }
    ensures stores { Stores (expand (permitted barred (space_edges space.old)) (choice_of space.old.size f guides.now (space_words space.old) m a i).heuristic (choice_of space.old.size f guides.now (space_words space.old) m a i).vertex (space_vertices space.old)) space.old space.new }
    ensures log_after { log.new ≡ set log.old k (choice_word (choice_of space.old.size f guides.now (space_words space.old) m a i)) }
{
    let c = choice(space.vertices(), guides, f, m, a, i);
    note(log, k, c);
    expansion::expand(space, barred, c.heuristic, c.vertex);
}
