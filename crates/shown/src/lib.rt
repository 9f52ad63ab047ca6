// What several programs print: bytes, sets, and how many cases went as expected.
#![tactic(auto)]

ghost use Rattle.std.specs.Prelude.{◌≡◌, ◌+◌, min, cond};

use sets::walk;
use std::fmt;

// Bytes, each after a space by two hexadecimal digits.
#[derive(Clone, Copy)]
pub struct Bytes<'a>(pub &'a [u8]);

impl fmt::Display for Bytes<'_> {
    fn fmt<W: fmt::Write>(&self, f: &mut fmt::Formatter<W>) -> fmt::Result {
        for byte in self.0 {
            write!(f, " {byte:02x}")?;
        }
        Ok(())
    }
}

// The lines of a set, each after a space.
#[derive(Clone, Copy)]
pub struct Lines(pub u64);

impl fmt::Display for Lines {
    fn fmt<W: fmt::Write>(&self, f: &mut fmt::Formatter<W>) -> fmt::Result {
        for line in walk::Lines::of(self.0) {
            write!(f, " {line}")?;
        }
        Ok(())
    }
}

// How many cases there were, and how many did not go as expected.
#[derive(Drop)]
pub struct Tally {
    cases: u32,
    failed: u32,
}

impl Tally {
    pub fn new() -> Tally
        ensures { (result.cases ≡ 0) × (result.failed ≡ 0) }
    {
        Tally {
            cases: 0,
            failed: 0,
        }
    }

    // Counts a case; either number stays at the highest.
    pub fn count(&mut self, as_expected: bool)
        ensures cases { self.new.cases ≡ min (self.old.cases + 1) 4294967295 }
        ensures failed { self.new.failed ≡ cond as_expected self.old.failed (min (self.old.failed + 1) 4294967295) }
    {
        self.cases = self.cases.saturating_add(1);
        if !as_expected {
            self.failed = self.failed.saturating_add(1);
        }
    }
}

impl fmt::Display for Tally {
    fn fmt<W: fmt::Write>(&self, f: &mut fmt::Formatter<W>) -> fmt::Result {
        let Tally { cases, failed } = self;
        write!(f, "{cases} cases, {failed} failed")
    }
}
