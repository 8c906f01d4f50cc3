// The schedule that a call takes: which one it is, row 10, and the factors of each round; and the default schedule.
#![tactic(auto)]

pub mod default_schedule;

ghost use Rattle.std.specs.Prelude.{◌≤◌, ◌<◌, ◌≡◌, length, get_or};
ghost use Rattle.search.specs.Call.{or_default, out_of_range, rising, unfit_schedule, pairs};

use search::Factors;

// The most numbers, two for each of 16 rounds, and the range of a factor.
const MAX_COUNT: usize = 32;

const LEAST_FACTOR: u32 = 100;

const MOST_FACTOR: u32 = 10000;

// The schedule that a call takes: its own, or where that is empty the default schedule (house schedule).
pub fn or_default<'a>(given: &'a [u32], default_schedule: &'a [u32]) -> &'a [u32]
    ensures { result.now ≡ or_default default_schedule.now given.now }
{
    if given.is_empty() {
        default_schedule
    } else {
        given
    }
}

// A factor is outside 100 to 10,000.
fn out_of_range(schedule: &[u32]) -> bool
    ensures { result ≡ out_of_range schedule.now }
{
    schedule
        .iter()
        .any(|w| !(LEAST_FACTOR..=MOST_FACTOR).contains(w))
}

// W1 or W2 is above that of the round before.
fn rising(schedule: &[u32]) -> bool
    ensures { result ≡ rising schedule.now }
{
    schedule
        .iter()
        .zip(schedule.iter().skip(2))
        .any(|(w, next)| w < next)
}

// Row 10: a schedule is unfit: empty, over 16 rounds, odd, out of range or rising.
pub fn schedule_fails(schedule: &[u32]) -> bool
    ensures { result ≡ unfit_schedule schedule.now }
{
    schedule.is_empty()
        || MAX_COUNT < schedule.len()
        || schedule.len() % 2 == 1
        || out_of_range(schedule)
        || rising(schedule)
}

// How many rounds a schedule has, where it has at most 32 numbers.
pub fn rounds(schedule: &[u32]) -> u32
    requires { length schedule.now ≤ 32 }
    ensures { result ≡ length (pairs schedule.now) }
{
    (schedule.len() / 2) as u32
}

// The factors that a schedule has for the round after r others.
pub fn factors(schedule: &[u32], r: u32) -> Factors
    requires { r < length (pairs schedule.now) }
    ensures { result ≡ get_or (pairs schedule.now) r (record { w1 = 0; w2 = 0 }) }
{
    let i = r as usize * 2;
    let w1 = schedule[i];
    let w2 = schedule[i + 1];
    Factors { w1, w2 }
}
