// Four lists for a plan's edges, a field of each edge in each list: the form in which C lends them.
ghost use Rattle.std.specs.Prelude.{◌≡◌};
ghost use Rattle.graph.specs.Lists.{room_for};
ghost use Rattle.plan_reader.specs.Stored.{HasPlace, EdgeStored};

use graph::Edge;

#[derive(Drop)]
pub struct Lists<'a> {
    pub tails: &'a mut [u32],
    pub heads: &'a mut [u32],
    pub costs: &'a mut [u32],
    pub classes: &'a mut [u32],
}

impl<'a> Lists<'a> {
    // Does each list have room for this count of edges?
    #[tactic(auto, unfolding(graph::specs::Lists::room_for))]
    pub fn has_room(&self, count: usize) -> bool
        ensures { result ≡ room_for count self.now.tails.now self.now.heads.now self.now.costs.now self.now.classes.now }
    {
        count <= self.tails.len()
            && count <= self.heads.len()
            && count <= self.costs.len()
            && count <= self.classes.len()
    }

    // An edge stored at i.
    pub fn store(&mut self, i: usize, edge: Edge)
        requires { HasPlace i self.old }
        ensures { EdgeStored i edge self.old self.new }
    {
        self.tails[i] = edge.tail;
        self.heads[i] = edge.head;
        self.costs[i] = edge.cost;
        self.classes[i] = edge.class;
    }
}
