// A plan read into four lent lists: V and M, or the refusal, and then the lists are untouched.
#![tactic(auto)]

mod lists;

ghost use Rattle.std.specs.Prelude.{◌≡◌, Ok};
ghost use Rattle.graph.specs.Plan.{first_at, edges_from, sizes};
ghost use Rattle.graph.specs.Lists.{tail_of, head_of, cost_of, class_of, edges_in, read_answer, list_after};
ghost use Rattle.plan_reader.specs.Stored.{HasRoom, AllStored};

use crate::lists::Lists;
use graph::Size;
use graph::refusal::{Cause, Refusal};
use plan_check::cursor;

// All edges of a plan that was checked stored from the front on.
#[tactic(auto, using(crate::proofs::Filling::filled_none, crate::proofs::Filling::none_refused, plan_check::proofs::Checked::has_next))]
fn fill(bytes: &[u8], size: Size, at: usize, lists: &mut Lists)
    requires is_checked { sizes (edges_from size.vertices size.edges bytes.now (first_at at)) ≡ Ok size }
    requires has_room { HasRoom size.edges lists.old }
    ensures { AllStored (edges_in (edges_from size.vertices size.edges bytes.now (first_at at))) lists.old lists.new }
{
    let mut cursor = cursor::first(at);
    for i in 0..size.edges as usize {
        // The plan was checked: there is no refusal.
        let Ok((edge, next)) = cursor::next_checked(cursor, bytes, size.vertices) else {
            return;
        };
        lists.store(i, edge);
        cursor = next;
    }
}

// The whole plan into the lists. The four are the C interface's.
#[tactic(auto, unfolding(graph::specs::Lists::read_answer, graph::specs::Lists::read_as, graph::specs::Lists::list_after, graph::specs::Plan::decode, graph::specs::Plan::after_header, graph::specs::Plan::sizes), using(crate::proofs::Filling::good, crate::proofs::Filling::answer_is, crate::proofs::Filling::list_is))]
pub fn read(
    bytes: &[u8],
    tails: &mut [u32],
    heads: &mut [u32],
    costs: &mut [u32],
    classes: &mut [u32],
) -> Result<Size, Refusal>
    ensures value { result ≡ read_answer bytes.now tails.old heads.old costs.old classes.old }
    ensures tails_after { tails.new ≡ list_after tail_of bytes.now tails.old result }
    ensures heads_after { heads.new ≡ list_after head_of bytes.now heads.old result }
    ensures costs_after { costs.new ≡ list_after cost_of bytes.now costs.old result }
    ensures classes_after { classes.new ≡ list_after class_of bytes.now classes.old result }
{
    let (size, at) = plan_check::header(bytes)?;
    plan_check::check_edges(bytes, size, at)?;
    let mut lists = Lists {
        tails,
        heads,
        costs,
        classes,
    };
    if !lists.has_room(size.edges as usize) {
        return Err(Cause::Memory.at(0));
    }
    fill(bytes, size, at, &mut lists);
    Ok(size)
}
