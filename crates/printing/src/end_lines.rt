// The lines that end printed text, a search's end or a refusal, and the text of a search.
#![tactic(auto, unfolding(text::specs::Text::ascii, text::specs::Text::field, text::specs::Text::end_line, text::specs::Text::refused_line))]

ghost use Rattle.std.specs.Prelude.{◌++◌};
ghost use Rattle.text.specs.Laid.{Counted};
ghost use Rattle.text.specs.Text.{newline, field, end_line, refused_line};
ghost use Rattle.printing.specs.Writing.{Wrote, route_end, route_text, turns_text};

use crate::lines::first;
use crate::writer::Writer;
use search::Summary;

impl Writer<'_> {
    // The end of a search that found a route: the incumbent's cost, finished rounds, turns, and the bound.
    pub(crate) fn end_line(&mut self, summary: Summary)
        requires { Counted self.old.at (end_line summary.cost summary.rounds summary.expansions summary.bound) }
        ensures { Wrote (end_line summary.cost summary.rounds summary.expansions summary.bound) self.old self.new }
    {
        self.field(b"end cost ", summary.cost);
        self.field(b" rounds ", u64::from(summary.rounds));
        self.field(b" turns ", u64::from(summary.expansions));
        self.field(b" bound ", u64::from(summary.bound));
        self.byte(b'\n');
    }

    // The end of a search without a route: words, and after them the turns.
    pub(crate) fn turns_line(&mut self, words: &[u8], turns: u32)
        requires { Counted self.old.at (field words.now turns ++ newline) }
        ensures { Wrote (field words.now turns ++ newline) self.old self.new }
    {
        self.field(words, u64::from(turns));
        self.byte(b'\n');
    }

    // A refusal: its number and its position.
    pub(crate) fn refused_line(&mut self, number: u32, position: usize)
        requires { Counted self.old.at (refused_line number position) }
        ensures { Wrote (refused_line number position) self.old self.new }
    {
        self.field(b"refused ", u64::from(number));
        self.field(b" at ", position as u64);
        self.byte(b'\n');
    }

    // How the text of a route ends: the route line and the end line.
    pub(crate) fn route_end(&mut self, summary: Summary, route: &[u32])
        requires { Counted self.old.at (route_end summary route.now) }
        ensures { Wrote (route_end summary route.now) self.old self.new }
    {
        self.vertices_line(b"route", first(route, summary.length));
        self.end_line(summary);
    }

    // A route: the turn lines, the route line and the end line.
    pub(crate) fn route(&mut self, summary: Summary, route: &[u32], log: &[u32])
        requires { Counted self.old.at (route_text summary route.now log.now) }
        ensures { Wrote (route_text summary route.now log.now) self.old self.new }
    {
        self.turn_lines(first(log, summary.expansions));
        self.route_end(summary, route);
    }

    // No route, or unfinished: the turn lines, and the line whose words say so.
    pub(crate) fn no_route(&mut self, words: &[u8], turns: u32, log: &[u32])
        requires { Counted self.old.at (turns_text words.now turns log.now) }
        ensures { Wrote (turns_text words.now turns log.now) self.old self.new }
    {
        self.turn_lines(first(log, turns));
        self.turns_line(words, turns);
    }
}
