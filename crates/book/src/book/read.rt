// What a book answers about itself.
ghost use Rattle.std.specs.Prelude.{◌≡◌, ℕ, ◌≤◌, Decides, Some, length};
ghost use Rattle.book.specs.Calls.{IsHeld, IsNamed, SayWords, Where};
ghost use Rattle.book.specs.Rows.{AnyVacant, Full, FullOf, GivesLines, union, lines_named, unless_lines, at};
ghost use Rattle.book.specs.View.{view, said};
ghost use Rattle.sets.specs.Sets.{Has};
ghost use Rattle.std.specs.Option.{option_map};

use crate::book::Book;
use crate::book::search::place_of;
use crate::rows::{HoldRow, LineRow, Rule, Wording};
use sets::refusal::Refusal;

// A row that has lines.
pub trait OfLines {
    ghost lines: { Self → ℕ };

    fn has(&self, line: u32) -> bool
        ensures { Decides result (Has (lines self.now) line) };
}

// A rule has the lines that it names: needs, unless and gives.
impl OfLines for Rule {
    ghost lines = { lines_named };

    fn has(&self, line: u32) -> bool {
        sets::has(self.needs | self.unless, line) | (self.gives == line)
    }
}

impl OfLines for HoldRow {
    ghost lines = { λ h. h.lines };

    fn has(&self, line: u32) -> bool {
        sets::has(self.lines, line)
    }
}

// Is the place filled? None past the end is.
fn filled<R>(rows: &[Option<R>], place: usize) -> bool
    ensures { Decides result (Full rows.now place) }
{
    rows.get(place).is_some_and(|row| row.is_some())
}

// Does some row have the line?
fn any_has<R: OfLines>(rows: &[Option<R>], line: u32) -> bool
    ensures { Decides result (Has (union R.lines rows.now) line) }
{
    rows.iter()
        .any(|row| row.as_ref().is_some_and(|one| one.has(line)))
}

// The lines of all unless-sets together.
fn all_unless(rules: &[Option<Rule>]) -> u64
    ensures { result ≡ unless_lines rules.now }
{
    let mut all = 0;
    for row in rules {
        if let Some(rule) = row {
            all |= rule.unless;
        }
    }
    all
}

impl Book {
    // The lines that have a statement.
    pub fn written(&self) -> u64
        ensures { FullOf (view self.now).lines result }
    {
        sets::lines_where(|line| self.has_statement(line))
    }

    // The lines that stand in some unless-set.
    pub fn unless_lines(&self) -> u64
        ensures { result ≡ unless_lines (view self.now).rules }
    {
        all_unless(&self.tables.rules)
    }

    // Does the line have a statement?
    pub fn has_statement(&self, line: u32) -> bool
        ensures { Decides result (Full (view self.now).lines line) }
    {
        filled(&self.tables.lines, line as usize)
    }

    // Is one of these lines empty?
    pub fn any_vacant(&self, lines: u64) -> bool
        ensures { Decides result (AnyVacant (view self.now).lines lines) }
    {
        !sets::within(lines, self.written())
    }

    // Does the place have a rule?
    pub fn has_rule(&self, place: u32) -> bool
        ensures { Decides result (Full (view self.now).rules place) }
    {
        filled(&self.tables.rules, place as usize)
    }

    // Does a rule name the line?
    pub fn is_named(&self, line: u32) -> bool
        ensures { Decides result (IsNamed (view self.now) line) }
    {
        any_has(&self.tables.rules, line)
    }

    // Does a hold that is out have the line?
    pub fn is_held(&self, line: u32) -> bool
        ensures { Decides result (IsHeld (view self.now) line) }
    {
        any_has(&self.tables.holds, line)
    }

    // The rule of each place, if it has one. Each gives a line.
    pub fn rules(&self) -> &[Option<Rule>]
        ensures same { result.now ≡ (view self.now).rules }
        ensures lines { GivesLines result.now }
    {
        &self.tables.rules
    }

    // Copies the words of a line to the buffer's start.
    pub fn words(&self, line: u32, buffer: &mut [u8]) -> Result<Wording, Refusal>
        ensures { SayWords (view self.now) line buffer.old buffer.new result }
    {
        if line > 63 {
            return Err(Refusal::OutOfRange);
        }
        let row = self.statement(line).ok_or(Refusal::Empty)?;
        let words = row.words.as_slice();
        let len = words.len();
        if buffer.len() < len {
            return Err(Refusal::BufferTooShort);
        }
        buffer[..len].copy_from_slice(words);
        Ok(Wording {
            len,
            number: row.number,
        })
    }

    // The number that the next statement gets.
    pub fn next_number(&self) -> u32
        ensures { result ≡ (view self.now).next }
    {
        self.tables.next
    }

    // The line that has this number now, or none.
    pub fn where_is(&self, number: u32) -> Option<u32>
        ensures { Where (view self.now) number result }
    {
        let line = place_of(&self.tables.lines, number)?;
        Some(line as u32)
    }

    // The statement of a line, if it has one.
    pub fn statement(&self, line: u32) -> Option<LineRow>
        ensures said { option_map said result ≡ at (view self.now).lines line }
        ensures worded { (row : LineRow) → result ≡ Some row → length row.words ≤ 24 }
    {
        *self.tables.lines.get(line as usize)?
    }
}
