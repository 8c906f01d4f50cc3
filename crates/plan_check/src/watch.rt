// What goes along with a plan's edges while they are read.
ghost use Rattle.std.specs.Prelude.{ℕ, ◌≡◌};
ghost use Rattle.graph.specs.declared.Edge.{Edge};

use graph::Edge;

// A watch sees each edge that is read, with its number.
pub trait Watch {
    ghost seen: { Self → ℕ → Edge → Self };

    fn see(self, i: usize, edge: Edge) -> Self
        ensures { result ≡ seen self i edge };
}

// No watch: the edges are read, and no more.
#[derive(Clone, Copy)]
pub struct Unwatched;

impl Watch for Unwatched {
    ghost seen = { λ it i edge. it };

    fn see(self, _: usize, _: Edge) -> Unwatched {
        self
    }
}
