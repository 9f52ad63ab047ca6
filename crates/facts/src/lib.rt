// Facts: which lines follow from which, and which lines they speak of.
#![tactic(auto)]

ghost use Rattle.facts.specs.Meaning.{Meaning, Lawful, bare};
ghost use Rattle.facts.specs.Baring.{bare_lawful};
ghost use Rattle.std.specs.Prelude.{◌≡◌};

pub mod given;
pub mod step;
pub mod steps;

// What the layers above know of facts: their meaning alone.
pub trait Facts {
    ghost meaning: { Self → Meaning };

    // The set that follows from a set.
    fn follow(&self, set: u64) -> u64
        ensures { result ≡ (meaning self.now).follow set };

    // The lines that the facts name.
    fn names(&self) -> u64
        ensures { result ≡ (meaning self.now).names };

    ghost lawful: { (f : Self) → Lawful (meaning f) };
}

// Facts that say nothing: a set follows from itself, and no line is named.
#[derive(Clone, Copy)]
pub struct Bare;

impl Facts for Bare {
    ghost meaning = { λ _. bare };

    ghost lawful = { λ _. bare_lawful };

    fn follow(&self, set: u64) -> u64
        ensures { result ≡ set }
    {
        set
    }

    fn names(&self) -> u64
        ensures { result ≡ 0 }
    {
        0
    }
}
