// The calls that edit a book.
ghost use Rattle.std.specs.Prelude.{◌≡◌, ◌<◌};
ghost use Rattle.book.specs.Calls.{Write, Strike, PutRule, Unrule};
ghost use Rattle.book.specs.Contents.{empty_book};
ghost use Rattle.book.specs.Rows.{lines_named};
ghost use Rattle.book.specs.View.{view};

use crate::book::Book;
use crate::rows::{LineRow, Rule, Tables};
use crate::text::Words;
use facts::Facts;
use sets::refusal::Refusal;

// The last number that a statement or a hold may get.
pub const LAST_NUMBER: u32 = 65535;

// How many lines may stand in unless-sets.
const MOST_UNLESS: u32 = 12;

// The lines that a rule names: needs, unless-set and the line that it gives.
fn lines_named(rule: &Rule) -> u64
    requires { rule.now.gives < 64 }
    ensures { result ≡ lines_named rule.now }
{
    rule.needs | rule.unless | 1 << rule.gives
}

impl Book {
    // A new book, with every line and every place empty.
    pub fn new() -> Book
        ensures { view result ≡ empty_book }
    {
        Book {
            tables: Tables {
                lines: [None; 64],
                rules: [None; 40],
                holds: [None; 16],
                next: 1,
                next_hold: 1,
            },
        }
    }

    // Fills an empty line, and answers the statement's number.
    pub fn write(&mut self, line: u32, words: &[u8]) -> Result<u32, Refusal>
        ensures { Write (view self.old) line words.now result (view self.new) }
    {
        if line > 63 {
            return Err(Refusal::OutOfRange);
        }
        if self.has_statement(line) {
            return Err(Refusal::Filled);
        }
        let words = Words::new(words)?;
        let number = self.tables.next;
        if number > LAST_NUMBER {
            return Err(Refusal::NumbersSpent);
        }
        self.tables.lines[line as usize] = Some(LineRow { number, words });
        self.tables.next = number + 1;
        Ok(number)
    }

    // Empties a line that no hold has and that no rule and no fact names.
    pub fn strike<F: Facts>(&mut self, line: u32, facts: &F) -> Result<(), Refusal>
        ensures { Strike (F.Facts.meaning facts.now).names (view self.old) line result (view self.new) }
    {
        if line > 63 {
            return Err(Refusal::OutOfRange);
        }
        if !self.has_statement(line) {
            return Err(Refusal::Empty);
        }
        if self.is_held(line) {
            return Err(Refusal::Held);
        }
        if self.is_named(line) || sets::has(facts.names(), line) {
            return Err(Refusal::Named);
        }
        self.tables.lines[line as usize] = None;
        Ok(())
    }

    // Fills an empty place with a rule that names written lines only.
    pub fn rule(&mut self, place: u32, rule: Rule) -> Result<(), Refusal>
        ensures { PutRule (view self.old) place rule result (view self.new) }
    {
        if place > 39 || rule.gives > 63 {
            return Err(Refusal::OutOfRange);
        }
        if self.has_rule(place) {
            return Err(Refusal::Filled);
        }
        if self.any_vacant(lines_named(&rule)) {
            return Err(Refusal::Empty);
        }
        let unless = self.unless_lines() | rule.unless;
        if unless.count_ones() > MOST_UNLESS {
            return Err(Refusal::TooManyUnless);
        }
        self.tables.rules[place as usize] = Some(rule);
        Ok(())
    }

    // Empties a place.
    pub fn unrule(&mut self, place: u32) -> Result<(), Refusal>
        ensures { Unrule (view self.old) place result (view self.new) }
    {
        if place > 39 {
            return Err(Refusal::OutOfRange);
        }
        if !self.has_rule(place) {
            return Err(Refusal::Empty);
        }
        self.tables.rules[place as usize] = None;
        Ok(())
    }
}
