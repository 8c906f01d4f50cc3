// The default schedule (house schedule) as a value: our six rounds, and a site's sheet loaded over them.
ghost use Rattle.std.specs.Prelude.{◌≤◌, ◌≡◌, length};
ghost use Rattle.graph.specs.Lists.{over};
ghost use Rattle.schedule.specs.DefaultSchedule.{initial, loading};

use crate::schedule_fails;

// The default schedule: its first `count` numbers, W1, W2, W1, W2, ..
// A buffer and a count, as the C interface lends them, and of the numbers behind the last `Loads.behind` speaks.
#[derive(Drop)]
pub struct DefaultSchedule {
    pub numbers: [u32; 32],
    pub count: u32,
}

// The sheet in front, then the numbers that stood behind its last.
#[tactic(auto, unfolding(graph::specs::Lists::over))]
fn laid(mut numbers: [u32; 32], sheet: &[u32]) -> [u32; 32]
    requires { length sheet.now ≤ 32 }
    ensures { result ≡ over sheet.now numbers }
{
    numbers[..sheet.len()].copy_from_slice(sheet);
    numbers
}

impl DefaultSchedule {
    // The one that stands until a sheet is accepted: our six rounds.
    pub fn standard() -> DefaultSchedule
        ensures { result ≡ initial }
    {
        let six = [500, 500, 300, 300, 200, 200, 150, 150, 120, 120, 100, 100];
        let numbers = laid([0u32; 32], &six);
        DefaultSchedule { numbers, count: 12 }
    }

    // A sheet of 1 to 16 pairs is loaded; one that row 10 refuses is rejected, and what was in force is handed back.
    pub fn load(self, sheet: &[u32]) -> Result<DefaultSchedule, DefaultSchedule>
        ensures { result ≡ loading self sheet.now }
    {
        if schedule_fails(sheet) {
            return Err(self);
        }
        let numbers = laid(self.numbers, sheet);
        let count = sheet.len() as u32;
        Ok(DefaultSchedule { numbers, count })
    }
}
