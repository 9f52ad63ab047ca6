// What a given set answers: the facts below are asked with it, and its lines are named.
ghost use Rattle.facts.specs.Given.{given};
ghost use Rattle.facts.specs.Meaning.{Meaning};
ghost use Rattle.std.specs.Prelude.{◌≡◌, bit_or};
ghost use Rattle.facts.specs.Giving.{given_lawful};

use crate::Facts;
use crate::given::Given;

impl<F: Facts> Facts for Given<F> {
    ghost meaning = { λ f. given f.lines (F.Facts.meaning f.below) };

    ghost lawful = { λ f. given_lawful f.lines (F.Facts.meaning f.below) f.fits (F.Facts.lawful f.below) };

    fn follow(&self, set: u64) -> u64
        ensures { result ≡ (F.Facts.meaning self.now.below).follow (bit_or set self.now.lines) }
    {
        self.below.follow(set | self.lines)
    }

    fn names(&self) -> u64
        ensures { result ≡ bit_or (F.Facts.meaning self.now.below).names self.now.lines }
    {
        self.below.names() | self.lines
    }
}
