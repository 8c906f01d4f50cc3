// The lines of a search's turns, of a route and of what can be reached.
#![tactic(auto, unfolding(text::specs::Text::ascii, text::specs::Text::field, text::specs::Text::turn_line, text::specs::Text::logged_line))]

ghost use Rattle.std.specs.Prelude.{◌≡◌, take};
ghost use Rattle.text.specs.Laid.{Counted};
ghost use Rattle.text.specs.Text.{logged_line, turn_lines, vertices, vertices_line};
ghost use Rattle.printing.specs.Writing.{Wrote};

use crate::writer::Writer;

impl Writer<'_> {
    // The turn that a log word shows: its number, its heuristic (table) and the vertex expanded.
    fn logged_line(&mut self, number: usize, word: u32)
        requires { Counted self.old.at (logged_line number word) }
        ensures { Wrote (logged_line number word) self.old self.new }
    {
        self.field(b"turn ", number as u64);
        self.field(b" table ", u64::from(word / 65536));
        self.field(b" place ", u64::from(word % 65536));
        self.byte(b'\n');
    }

    // The turns that a log shows.
    pub(crate) fn turn_lines(&mut self, log: &[u32])
        requires { Counted self.old.at (turn_lines log.now) }
        ensures { Wrote (turn_lines log.now) self.old self.new }
    {
        for (i, word) in log.iter().enumerate() {
            self.logged_line(1 + i, *word);
        }
    }

    // The vertices of a list, each after a space.
    fn vertices(&mut self, list: &[u32])
        requires { Counted self.old.at (vertices list.now) }
        ensures { Wrote (vertices list.now) self.old self.new }
    {
        for vertex in list {
            self.field(b" ", u64::from(*vertex));
        }
    }

    // A word, and vertices after it.
    pub(crate) fn vertices_line(&mut self, word: &[u8], list: &[u32])
        requires { Counted self.old.at (vertices_line word.now list.now) }
        ensures { Wrote (vertices_line word.now list.now) self.old self.new }
    {
        self.word(word);
        self.vertices(list);
        self.byte(b'\n');
    }
}

// The first `count` of a slice, or all that there are.
pub(crate) fn first(list: &[u32], count: u32) -> &[u32]
    ensures { result.now ≡ take count list.now }
{
    &list[..list.len().min(count as usize)]
}
