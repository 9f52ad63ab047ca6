// What a menu is saved as: its lines with their numbers.
ghost use Rattle.std.specs.Prelude.{◌+◌, ◌≤◌};
ghost use Rattle.book.specs.Kept.{last_number};
ghost use Rattle.book.specs.Saved.{EntriesOf};
ghost use Rattle.book.specs.View.{view};
ghost use Rattle.record.specs.Record.{Good, listed};

use crate::book::Book;
use record::entries::{Entries, Entry};
use sets::walk::Lines;

impl Book {
    // The entries of a set of lines: each of its lines that has a statement, with the statement's number.
    pub fn entries(&self, lines: u64) -> Entries
        ensures of { EntriesOf (view self.now) lines (listed result) }
        ensures good { Good (view self.now).next (listed result) }
        ensures next { (view self.now).next ≤ last_number + 1 }
    {
        let mut entries = Entries::new();
        for line in Lines::of(lines) {
            if let Some(row) = self.statement(line) {
                entries.push(Entry {
                    line,
                    number: row.number,
                });
            }
        }
        entries
    }
}
