// A plan in the form in which C lends it: V, and the edges in four lists.
ghost use Rattle.std.specs.Prelude.{◌≡◌, ◌∷◌, ◌+◌, ◌<◌, ◌≤◌, drop, length, MatchResult};
ghost use Rattle.graph.specs.Limits.{max_vertices, max_edges};
ghost use Rattle.graph.specs.Lists.{fault, write_fault};
ghost use Rattle.plan_writer.specs.Writing.{Equal};

use graph::refusal::{Cause, Refusal};
use graph::{Edge, MAX_EDGES, MAX_VERTICES};

// V and M are within their limits, and the lists are of one length.
#[derive(Clone, Copy)]
pub struct Plan<'a> {
    pub vertices: u32,
    tails: &'a [u32],
    heads: &'a [u32],
    costs: &'a [u32],
    classes: &'a [u32],
    ghost vertices_some: { 0 < vertices },
    ghost vertices_few: { vertices ≤ max_vertices },
    ghost edges_few: { length tails.now ≤ max_edges },
    ghost equal: { Equal tails.now heads.now costs.now classes.now },
}

impl<'a> Plan<'a> {
    ghost use Rattle.plan_writer.specs.Listed.{listed, Lends};

    // V and the lists through rows 2 and 3.
    #[tactic(auto, unfolding(graph::specs::Lists::write_fault, graph::specs::Lists::list_rows, graph::specs::Rows::vertex_count_rows, graph::specs::Rows::through))]
    pub fn new(
        vertices: u32,
        tails: &'a [u32],
        heads: &'a [u32],
        costs: &'a [u32],
        classes: &'a [u32],
    ) -> Result<Plan<'a>, Refusal>
        ensures { MatchResult result (Lends vertices tails.now heads.now costs.now classes.now) (λ r. write_fault vertices tails.now heads.now costs.now classes.now ≡ fault r.cause r.at) }
    {
        if vertices == 0 || MAX_VERTICES < vertices {
            return Err(Cause::VertexCount.at(0));
        }
        let count = tails.len();
        if count > MAX_EDGES as usize
            || heads.len() != count
            || costs.len() != count
            || classes.len() != count
        {
            return Err(Cause::EdgeCount.at(0));
        }
        Ok(Plan {
            vertices,
            tails,
            heads,
            costs,
            classes,
        })
    }

    // M.
    #[tactic(auto, using(crate::proofs::Writer::edges_count))]
    pub fn len(&self) -> usize
        ensures value { result ≡ length (listed self.now) }
        ensures few { result ≤ max_edges }
    {
        self.tails.len()
    }

    // The edge number i.
    #[tactic(auto, using(crate::proofs::Writer::edges_count))]
    pub fn edge(&self, i: usize) -> Edge
        requires { i < length (listed self.now) }
        ensures { drop i (listed self.now) ≡ result ∷ drop (i + 1) (listed self.now) }
    {
        Edge {
            tail: self.tails[i],
            head: self.heads[i],
            cost: self.costs[i],
            class: self.classes[i],
        }
    }
}
