// The lines that say why there is no route: what can be reached, and the barred edges that leave it.
#![tactic(auto, unfolding(text::specs::Text::ascii, text::specs::Text::field, text::specs::Text::barred_line))]

ghost use Rattle.std.specs.Prelude.{take};
ghost use Rattle.text.specs.Laid.{Counted};
ghost use Rattle.text.specs.Text.{each, barred_line};
ghost use Rattle.job.specs.Explained.{edge_line};
ghost use Rattle.workspace.specs.Layout.{Whole};
ghost use Rattle.workspace.specs.Space.{graph_edges};
ghost use Rattle.printing.specs.Shown.{Numbers};
ghost use Rattle.printing.specs.Writing.{Wrote, reason_text};

use crate::lines::first;
use crate::writer::Writer;
use graph::Edge;
use search::Explanation;
use workspace::{Graph, edge_words};

impl Writer<'_> {
    // An edge: its number, tail, head, cost and class.
    fn barred_line(&mut self, number: u32, edge: Edge)
        requires { Counted self.old.at (barred_line number edge.tail edge.head edge.cost edge.class) }
        ensures { Wrote (barred_line number edge.tail edge.head edge.cost edge.class) self.old self.new }
    {
        self.field(b"barred lane ", u64::from(number));
        self.field(b" tail ", u64::from(edge.tail));
        self.field(b" head ", u64::from(edge.head));
        self.field(b" cost ", u64::from(edge.cost));
        self.field(b" class ", u64::from(edge.class));
        self.byte(b'\n');
    }

    // The edges of a graph whose numbers are listed.
    fn edge_lines(&mut self, graph: Graph<'_>, list: &[u32])
        requires { Whole graph.size graph.words.now × Numbers graph.size list.now × Counted self.old.at (each (edge_line (graph_edges graph)) 0 list.now) }
        ensures { Wrote (each (edge_line (graph_edges graph.entry)) 0 list.now) self.old self.new }
    {
        for j in list {
            self.barred_line(*j, edge_words::numbered(graph.words, graph.size, *j));
        }
    }

    // Why there is no route: that there is none, the vertices that can be reached, and the barred edges that leave
    // them, as many as are answered.
    pub(crate) fn reason<R: Copy>(
        &mut self,
        turns: u32,
        explanation: Explanation<R>,
        graph: Graph<'_>,
        vertices: &[u32],
        edges: &[u32],
    )
        requires { Whole graph.size graph.words.now × Numbers graph.size (take explanation.edges edges.now) × Counted self.old.at (reason_text turns explanation (graph_edges graph) vertices.now edges.now) }
        ensures { Wrote (reason_text turns explanation (graph_edges graph.entry) vertices.now edges.now) self.old self.new }
    {
        self.turns_line(b"no route turns ", turns);
        self.vertices_line(b"reach", first(vertices, explanation.vertices));
        self.edge_lines(graph, first(edges, explanation.edges));
    }
}
