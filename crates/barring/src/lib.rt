// Barred classes: whether a call bars a class of edges.
#![tactic(auto)]

ghost use Rattle.std.specs.Prelude.{◌≡◌, ◌≤◌};
ghost use Rattle.graph.specs.Limits.{max_class};
ghost use Rattle.search.specs.Permitted.{barred_by};

// Whether the number of the barred classes names the class: its bit is set.
#[tactic(auto, unfolding(search::specs::Permitted::barred_by))]
pub fn bars(barred: u32, class: u32) -> bool
    requires { class ≤ max_class }
    ensures { result ≡ barred_by barred class }
{
    (barred >> class) % 2 == 1
}
