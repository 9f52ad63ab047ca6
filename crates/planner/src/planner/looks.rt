// Looking at a record.
ghost use Rattle.book.specs.Calls.{number_at};
ghost use Rattle.laws.specs.World.{Parted, looked};
ghost use Rattle.planner.specs.View.{Tells, view};
ghost use Rattle.record.specs.Record.{Rising};
ghost use Rattle.std.specs.Prelude.{◌≡◌, Some, Decides};

use crate::planner::Planner;
use facts::Facts;
use laws::looked::Looked;
use record::entries::Entry;
use record::fault::Fault;
use record::read::read;

impl<F: Facts> Planner<F> {
    // Reads a record by its numbers: which of its lines have that very number now, and which have not.
    pub fn look(&self, bytes: &[u8]) -> Result<Looked, Fault>
        ensures { Tells F.Facts.meaning self.now (looked bytes.now result) }
    {
        let entries = read(bytes, self.book.next_number())?;
        Ok(self.part(entries.as_slice()))
    }

    // Parts the entries' lines into current and gone.
    fn part(&self, entries: &[Entry]) -> Looked
        requires { Rising entries.now }
        ensures { Parted (view self.now).book entries.now result.current result.gone }
    {
        let mut current = 0;
        let mut gone = 0;
        for entry in entries {
            if self.has_now(*entry) {
                current = sets::with(current, entry.line);
            } else {
                gone = sets::with(gone, entry.line);
            }
        }
        Looked { current, gone }
    }

    // Does the entry's line have the entry's number now?
    fn has_now(&self, entry: Entry) -> bool
        ensures { Decides result (number_at (view self.now).book entry.line ≡ Some entry.number) }
    {
        self.book
            .statement(entry.line)
            .is_some_and(|row| row.number == entry.number)
    }
}
