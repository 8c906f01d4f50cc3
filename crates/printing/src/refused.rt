// What is printed of a refusal, whichever type it has: its number and its position.
ghost use Rattle.std.specs.Prelude.{ℕ, ◌≡◌};
ghost use Rattle.printing.specs.Shown.{refusal_shown};

use graph::refusal::Refusal;

// A refusal by a row of the table, or one given as a number and a position.
pub trait Refused {
    ghost shown: { Self → ℕ × ℕ };

    // Its number and its position.
    fn show(self) -> (u32, usize)
        ensures { result ≡ shown self };
}

impl Refused for Refusal {
    ghost shown = { refusal_shown };

    fn show(self) -> (u32, usize) {
        (self.cause.number(), self.at)
    }
}

impl Refused for (u32, usize) {
    ghost shown = { λ e. e };

    fn show(self) -> (u32, usize) {
        (self.0, self.1)
    }
}
