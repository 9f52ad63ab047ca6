// The lines of a set, one after the other.
ghost use Rattle.sets.specs.Sets.{IsLines, TakesLowest};
ghost use Rattle.std.specs.Iterator.{at_most};
ghost use Rattle.std.specs.Prelude.{◌≡◌};

// Those lines of a set that are still to come.
#[derive(Clone, Copy)]
pub struct Lines {
    left: u64,
    ghost fits: { IsLines left },
}

impl Lines {
    // The lines of a set, rising.
    pub fn of(set: u64) -> Lines
        ensures { result.left ≡ set }
    {
        Lines { left: set }
    }
}

impl Iterator for Lines {
    type Item = u32;

    ghost next_gives = { λ s line t. TakesLowest s.left line t.left };

    ghost remaining = { λ s. at_most s.left };

    fn next(&mut self) -> Option<u32> {
        if self.left == 0 {
            return None;
        }
        let line = self.left.trailing_zeros();
        self.left ^= 1 << line;
        Some(line)
    }
}
