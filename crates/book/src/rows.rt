// The rows of the book's tables.

use crate::text::Words;

// The statement on a line: its number and its words.
#[derive(Clone, Copy)]
pub struct LineRow {
    pub number: u32,
    pub words: Words,
}

// A rule: with the lines of `needs` in, the line `gives`, unless a line of `unless` is in.
#[derive(Clone, Copy)]
pub struct Rule {
    pub needs: u64,
    pub unless: u64,
    pub gives: u32,
}

// A hold that is out: its number, and the lines of the menu held.
#[derive(Clone, Copy)]
pub struct HoldRow {
    pub number: u32,
    pub lines: u64,
}

// What `words` answers: how many bytes the words are, and the statement's number.
#[derive(Clone, Copy, PartialEq, Eq, Debug)]
pub struct Wording {
    pub len: usize,
    pub number: u32,
}

// The plain tables of a book.
#[derive(Drop)]
pub struct Tables {
    pub lines: [Option<LineRow>; 64],
    pub rules: [Option<Rule>; 40],
    pub holds: [Option<HoldRow>; 16],
    // the number that the next statement gets
    pub next: u32,
    // the number that the next hold gets
    pub next_hold: u32,
}
