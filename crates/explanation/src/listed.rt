// A list in the making: numbers at the front of lent words (no heap).
ghost use Rattle.std.specs.Prelude.{◌<◌, [], ◌∷◌, length};
ghost use Rattle.explanation.specs.Listing.{Adds};

// The words, and how many of them are listed.
#[derive(Drop)]
pub struct Listed<'a> {
    pub words: &'a mut [u32],
    pub count: u32,
}

impl<'a> Listed<'a> {
    // Lists n after them.
    #[tactic(auto, unfolding(text::specs::Laid::laid))]
    pub fn push(&mut self, n: u32)
        requires { (self.old.count < length self.old.words.now) × (self.old.count < 4294967295) }
        ensures { Adds (n ∷ []) self.old self.new }
    {
        self.words[self.count as usize] = n;
        self.count += 1;
    }
}
