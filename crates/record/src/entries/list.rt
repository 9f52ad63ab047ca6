// A list of entries that grows to 64.
ghost use Rattle.record.specs.Record.{Pushes, listed};
ghost use Rattle.std.specs.Prelude.{◌≡◌, []};

use crate::entries::{Entries, Entry};
use arrayvec::ArrayVec;

impl Entries {
    pub fn new() -> Entries
        ensures { listed result ≡ [] }
    {
        Entries {
            items: ArrayVec::new(),
        }
    }

    // One entry more, at the end, and true; if there are 64 already, false, and all stays as it was.
    pub fn push(&mut self, entry: Entry) -> bool
        ensures { Pushes (listed self.old) entry (listed self.new) result }
    {
        self.items.try_push(entry).is_ok()
    }

    pub fn as_slice(&self) -> &[Entry]
        ensures { result.now ≡ listed self.now }
    {
        self.items.as_slice()
    }
}
