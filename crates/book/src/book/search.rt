// The search for a number, over rows of any kind that have one.
ghost use Rattle.std.specs.Prelude.{◌≡◌, ℕ, ◌<◌, length, Some, MatchOption, ◌≢◌};
ghost use Rattle.book.specs.Rows.{at};
ghost use Rattle.std.specs.Option.{option_map};

use crate::rows::{HoldRow, LineRow};

// A row that has a number.
pub trait Numbered {
    ghost numbered: { Self → ℕ };

    fn number(&self) -> u32
        ensures { result ≡ numbered self.now };
}

impl Numbered for LineRow {
    ghost numbered = { λ a. a.number };

    fn number(&self) -> u32 {
        self.number
    }
}

impl Numbered for HoldRow {
    ghost numbered = { λ h. h.number };

    fn number(&self) -> u32 {
        self.number
    }
}

// The place of a row with this number, if there is one.
pub fn place_of<R: Numbered>(rows: &[Option<R>], number: u32) -> Option<usize>
    ensures { MatchOption result ((i : ℕ) → option_map R.numbered (at rows.now i) ≢ Some number) (λ i. (i < length rows.now) × (option_map R.numbered (at rows.now i) ≡ Some number)) }
{
    rows.iter().position(|row| row.as_ref().is_some_and(|one| one.number() == number))
}
