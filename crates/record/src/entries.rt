// The entries of a saved menu: at most as many as there are lines.
ghost use Rattle.std.specs.Prelude.{◌≤◌, length};

use arrayvec::ArrayVec;

mod list;

pub const MOST_ENTRIES: usize = 64;

// A line of the menu, and the number of the words that stood on it.
#[derive(Clone, Copy, Default)]
pub struct Entry {
    pub line: u32,
    pub number: u32,
}

#[derive(Drop)]
pub struct Entries {
    items: ArrayVec<Entry, MOST_ENTRIES>,
    ghost few: { length items.items ≤ 64 },
}
