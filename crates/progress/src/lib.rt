// The record of the search in hand: each turn, and each round's end, moves it on.
#![tactic(auto)]

ghost use Rattle.std.specs.Prelude.{◌≡◌, ◌<◌};
ghost use Rattle.search.specs.Rounds.{first_turn, next_turn, turned, ended};
ghost use Rattle.progress.specs.Moved.{first_progress, max_count};

use search::Progress;

// Whose turn it is at a round's beginning, of n inadmissible heuristics; 0 where there are none.
#[tactic(auto, unfolding(search::specs::Rounds::first_turn))]
fn first_turn(n: u32) -> u32
    ensures { result ≡ first_turn n }
{
    if n == 0 { 0 } else { 1 }
}

// Whose turn it is after one of heuristic i.
#[tactic(auto, unfolding(search::specs::Rounds::next_turn))]
fn next_turn(n: u32, i: u32) -> u32
    ensures { result ≡ next_turn n i }
{
    if i < n { i + 1 } else { first_turn(n) }
}

// The record at first: guide 1 has the turn, if there are guides, and nothing is counted yet.
#[tactic(auto, unfolding(crate::specs::Moved::first_progress))]
pub fn at_first(guides: u32) -> Progress
    ensures { result ≡ first_progress guides }
{
    Progress {
        turn: first_turn(guides),
        expansions: 0,
        rounds: 0,
        cost: 0,
    }
}

// The record after a turn: the next guide's turn, and one expansion more.
#[tactic(auto, unfolding(search::specs::Rounds::turned))]
pub fn after_turn(guides: u32, p: Progress) -> Progress
    requires { p.expansions < max_count }
    ensures { result ≡ turned guides p }
{
    let turn = next_turn(guides, p.turn);
    Progress {
        turn,
        expansions: p.expansions + 1,
        ..p
    }
}

// The record after a round's end, where the incumbent now has this cost.
#[tactic(auto, unfolding(search::specs::Rounds::ended))]
pub fn after_round(guides: u32, cost: u64, p: Progress) -> Progress
    requires { p.rounds < max_count }
    ensures { result ≡ ended guides cost p }
{
    let turn = first_turn(guides);
    Progress {
        turn,
        rounds: p.rounds + 1,
        cost,
        ..p
    }
}
