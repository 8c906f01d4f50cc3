// The rules of a turn on plain numbers: step 1's test and step 3's choice.
ghost use Rattle.std.specs.Prelude.{◌≡◌, ◌<◌, ◌≤◌};
ghost use Rattle.search.specs.Job.{unreached};
ghost use Rattle.search.specs.Turn.{step_one, choose};
ghost use Rattle.search.specs.Bounds.{max_factor, max_g, max_key, Small};

use search::{Choice, Step, Vertex};

// Step 1, where g is that of the goal, and b the anchor's best.
#[tactic(auto, unfolding(search::specs::Turn::step_one, search::specs::Job::unreached))]
pub fn step_one(w2: u32, g: u64, b: Option<(u64, u32)>) -> Step
    requires { (w2 ≤ max_factor) × Small b × (g < unreached → g ≤ max_g) }
    ensures { result ≡ step_one w2 g b }
{
    let Some((m, a)) = b else {
        return Step::Stuck;
    };
    if g < Vertex::UNREACHED && 10000 * g <= u64::from(w2) * m {
        return Step::Finished;
    }
    Step::Due(m, a)
}

// Step 3: what a turn of heuristic i expands, where b is its best, and the anchor's least key is m at a.
#[tactic(auto, unfolding(search::specs::Turn::choose))]
pub fn choose(w2: u32, m: u64, a: u32, i: u32, b: Option<(u64, u32)>) -> Choice
    requires { (w2 ≤ max_factor) × (m ≤ max_key) × Small b }
    ensures { result ≡ choose w2 m a i b }
{
    match b {
        Some((k, s)) if 100 * k <= u64::from(w2) * m => Choice {
            heuristic: i,
            vertex: s,
        },
        _ => Choice {
            heuristic: 0,
            vertex: a,
        },
    }
}
