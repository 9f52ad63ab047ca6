// What steps answer: the smallest set closed under them, and every line that they name.
ghost use Rattle.std.specs.Prelude.{◌≡◌, ℕ, bit_or};
ghost use Rattle.facts.specs.Closure.{Passed};
ghost use Rattle.facts.specs.Meaning.{Meaning};
ghost use Rattle.facts.specs.Steps.{Follows, lines_of, stepped};
ghost use Rattle.facts.specs.Told.{told};
ghost use Rattle.sets.specs.Sets.{IsLines};
ghost use Rattle.facts.specs.Stepping.{ObeysAll, stepped_lawful, told_are};

use crate::Facts;
use crate::steps::Steps;

impl<F> Steps<F> {
    // One pass over the steps: each whose needs are in adds its line.
    fn pass(&self, mut set: u64) -> u64
        ensures { Passed (ObeysAll (told self.now)) set result }
    {
        for step in self.rows.as_slice() {
            set = step.fire(set);
        }
        set
    }
}

impl<F: Facts> Facts for Steps<F> {
    ghost meaning = { λ f. stepped (told f) (F.Facts.meaning f.below) };

    ghost lawful = { λ f. stepped_lawful (F.Facts.meaning f.below) (F.Facts.lawful f.below) (told f) (told_are f) };

    fn follow(&self, set: u64) -> u64
        ensures computed { result ≡ (stepped (told self.now) (F.Facts.meaning self.now.below)).follow set }
        ensures smallest { Follows (F.Facts.meaning self.now.below) (told self.now) set result }
        ensures every { (s : ℕ) → IsLines s → Follows (F.Facts.meaning self.now.below) (told self.now) s ((stepped (told self.now) (F.Facts.meaning self.now.below)).follow s) }
    {
        let mut reached = self.below.follow(set);
        loop {
            let next = self.below.follow(self.pass(reached));
            if next == reached {
                return reached;
            }
            reached = next;
        }
    }

    fn names(&self) -> u64
        ensures { result ≡ bit_or (F.Facts.meaning self.now.below).names (lines_of (told self.now)) }
    {
        let below = self.below.names();
        self.rows
            .iter()
            .fold(below, |named, step| named | step.lines())
    }
}
