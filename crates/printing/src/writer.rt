// A writer of bytes, words and numbers into a lent buffer.
ghost use Rattle.std.specs.Prelude.{◌∷◌, []};
ghost use Rattle.text.specs.Laid.{Counted};
ghost use Rattle.text.specs.Text.{digits, field};
ghost use Rattle.printing.specs.Writing.{Wrote, Starts};

// A text in a lent buffer: what passes the buffer's end is counted, but not kept.
// By hand and not `fmt::Write`: tried, and its `write!` promises nothing of what an `Err` leaves, nor that there is none.
#[derive(Drop)]
pub(crate) struct Writer<'a> {
    out: &'a mut [u8],
    pub(crate) at: usize,
}

impl<'a> Writer<'a> {
    // One that has written nothing.
    pub(crate) fn new(out: &'a mut [u8]) -> Writer<'a>
        ensures { Starts result out.entry }
    {
        Writer { out, at: 0 }
    }

    // One byte.
    pub(crate) fn byte(&mut self, byte: u8)
        requires { Counted self.old.at (byte ∷ []) }
        ensures { Wrote (byte ∷ []) self.old self.new }
    {
        if self.at < self.out.len() {
            self.out[self.at] = byte;
        }
        self.at += 1;
    }

    // The bytes of a word, at once where there is room for all.
    pub(crate) fn word(&mut self, word: &[u8])
        requires { Counted self.old.at word.now }
        ensures { Wrote word.now self.old self.new }
    {
        let end = self.at + word.len();
        if end <= self.out.len() {
            self.out[self.at..end].copy_from_slice(word);
            self.at = end;
        } else {
            for byte in word {
                self.byte(*byte);
            }
        }
    }

    // A number in decimal, without leading zeros.
    fn number(&mut self, value: u64)
        requires { Counted self.old.at (digits value) }
        ensures { Wrote (digits value) self.old self.new }
    {
        if 10 <= value {
            self.number(value / 10);
        }
        self.byte((48 + value % 10) as u8);
    }

    // A word and a number after it.
    pub(crate) fn field(&mut self, word: &[u8], value: u64)
        requires { Counted self.old.at (field word.now value) }
        ensures { Wrote (field word.now value) self.old self.new }
    {
        self.word(word);
        self.number(value);
    }
}
