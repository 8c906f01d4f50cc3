// The vertices that are reached, and their list.
ghost use Rattle.std.specs.Prelude.{◌<◌, ◌≤◌, ◌≡◌, length};
ghost use Rattle.text.specs.Laid.{Put};
ghost use Rattle.search.specs.Job.{at};
ghost use Rattle.search.specs.Reason.{numbers_of, is_reached};
ghost use Rattle.workspace.specs.Space.{space_vertices};

use crate::listed::Listed;
use search::Vertex;
use workspace::Workspace;

// Whether a walk has reached vertex s: it has a cost.
#[tactic(auto, unfolding(search::specs::Reason::is_reached, search::specs::Job::unreached))]
pub fn is_reached(space: &Workspace<'_>, s: u32) -> bool
    requires { s < space.now.size.vertices }
    ensures { result ≡ is_reached (at (space_vertices space.now) s) }
{
    space.vertex(s).g < Vertex::UNREACHED
}

// Lists the vertices that are reached, rising; how many they are.
pub fn list_vertices(space: &Workspace<'_>, words: &mut [u32]) -> u32
    requires { space.now.size.vertices ≤ length words.old }
    ensures { Put 0 (numbers_of is_reached 0 (space_vertices space.now)) words.old result words.new }
{
    let mut list = Listed { words, count: 0 };
    for s in 0..space.size.vertices {
        if is_reached(space, s) {
            list.push(s);
        }
    }
    list.count
}
