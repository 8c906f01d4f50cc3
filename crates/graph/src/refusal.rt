// Refusals: why a plan, a call or a job is turned down, and where.
ghost use Rattle.std.specs.Prelude.{◌≡◌};
ghost use Rattle.graph.specs.Refusal.{number_of, refusal_of, NotANumber};

use leb128::Malformed;

// Why: the rows of the table of refusals, by their numbers.
#[derive(Clone, Copy, Debug, PartialEq, Eq)]
pub enum Cause {
    // A number is missing or of bad form.
    Number = 1,
    // V is 0 or above its limit.
    VertexCount = 2,
    // M is above its limit, or lists of edges have unequal lengths.
    EdgeCount = 3,
    // A tail or a head is not a vertex.
    Vertex = 4,
    // A cost is above its limit.
    Cost = 5,
    // An edge does not follow the one before it: by its tail, or under the same tail by its head.
    Order = 6,
    // Bytes are left over.
    LeftOver = 7,
    // Start or goal is not a vertex, or the number of the barred classes is above 255.
    Ends = 8,
    // Too many guide sheets, or a table has not V numbers.
    Tables = 9,
    // The schedule is unfit.
    Schedule = 10,
    // Lent memory is too short.
    Memory = 11,
    // The anchor heuristic is not 0 at the goal.
    Goal = 12,
    // An edge breaks the anchor rule.
    AnchorRule = 13,
    // A bench job is not of its form.
    Job = 14,
    // A class is above its limit.
    Class = 15,
}

// A refusal, and its position.
#[derive(Clone, Copy, Debug, PartialEq, Eq)]
pub struct Refusal {
    pub cause: Cause,
    pub at: usize,
}

impl Cause {
    // Its number in the table.
    #[tactic(auto, unfolding(crate::specs::Refusal::number_of))]
    pub fn number(self) -> u32
        ensures { result ≡ number_of self }
    {
        self as u32
    }

    // The refusal for it at a position.
    pub fn at(self, at: usize) -> Refusal
        ensures { result ≡ refusal_of self at }
    {
        Refusal { cause: self, at }
    }
}

// What is no number is refused at its first byte.
impl From<Malformed> for Refusal {
    ghost from_gives = { NotANumber };

    fn from(number: Malformed) -> Refusal {
        Cause::Number.at(number.at)
    }
}
