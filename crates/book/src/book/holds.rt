// The holds that are out.
ghost use Rattle.std.specs.Prelude.{◌≡◌, ℕ, ◌<◌, length, Some, None, Decides, MatchOption};
ghost use Rattle.book.specs.Holds.{TakeHold, GiveBack};
ghost use Rattle.book.specs.Kept.{last_number};
ghost use Rattle.book.specs.Rows.{at, Full};
ghost use Rattle.book.specs.View.{view};
ghost use Rattle.sets.specs.Sets.{Has};
ghost use Rattle.std.specs.Option.{option_map};

use crate::book::Book;
use crate::book::edit::LAST_NUMBER;
use crate::book::search::place_of;
use crate::rows::HoldRow;
use sets::refusal::Refusal;

// The first place that is free, if there is one.
fn free_place(rows: &[Option<HoldRow>]) -> Option<usize>
    ensures { MatchOption result ((i : ℕ) → i < length rows.now → Full rows.now i) (λ i. (i < length rows.now) × (at rows.now i ≡ None)) }
{
    rows.iter().position(Option::is_none)
}

impl Book {
    // Has every hold number been given out?
    pub fn holds_spent(&self) -> bool
        ensures { Decides result (last_number < (view self.now).next_hold) }
    {
        self.tables.next_hold > LAST_NUMBER
    }

    // Takes a hold on these lines, and answers its number.
    pub fn hold(&mut self, lines: u64) -> Result<u32, Refusal>
        ensures { TakeHold (view self.old) lines result (view self.new) }
    {
        if self.holds_spent() {
            return Err(Refusal::NumbersSpent);
        }
        if self.any_vacant(lines) {
            return Err(Refusal::Empty);
        }
        let place = free_place(&self.tables.holds).ok_or(Refusal::HoldsFull)?;
        let number = self.tables.next_hold;
        self.tables.holds[place] = Some(HoldRow { number, lines });
        self.tables.next_hold = number + 1;
        Ok(number)
    }

    // Gives the hold of this number back.
    pub fn release(&mut self, number: u32) -> Result<(), Refusal>
        ensures { GiveBack (view self.old) number result (view self.new) }
    {
        let place = place_of(&self.tables.holds, number).ok_or(Refusal::NotOut)?;
        self.tables.holds[place] = None;
        Ok(())
    }

    // The lines of the hold of this number, if it is out. All of them are written.
    pub fn held(&self, number: u32) -> Option<u64>
        ensures lines { result ≡ option_map (λ h. h.lines) ((view self.now).holds number) }
        ensures written { (lines n : ℕ) → result ≡ Some lines → Has lines n → Full (view self.now).lines n }
    {
        let place = place_of(&self.tables.holds, number)?;
        let row = self.tables.holds[place]?;
        Some(row.lines)
    }
}
