// Sets of rows, in words of sixty-four.
ghost use Rattle.std.specs.Prelude.{◌≡◌, ℕ, ◌/◌, ◌%◌, ◌<◌, length, Decides};
ghost use Rattle.clauses.specs.Rows.{AllMeet, Meets, MeetsSense, atom_count};
ghost use Rattle.clauses.specs.Words.{InTable, RowOf, TableOf, WordOf};
ghost use Rattle.sets.specs.Sets.{Has};

use crate::clause::{ATOMS, Clause};

// A word has the rows that differ in the six lowest atoms.
const IN_WORD: u32 = 6;

// How many words all rows take.
const WORDS: usize = 1 << (ATOMS - IN_WORD);

// The rows of a word that say yes to each of its atoms.
const PATTERNS: [u64; 6] = [
    0xAAAA_AAAA_AAAA_AAAA,
    0xCCCC_CCCC_CCCC_CCCC,
    0xF0F0_F0F0_F0F0_F0F0,
    0xFF00_FF00_FF00_FF00,
    0xFFFF_0000_FFFF_0000,
    0xFFFF_FFFF_0000_0000,
];

// The rows of a word that say yes to the atom.
fn yes(atom: u32, word: usize) -> u64
    requires { atom < atom_count }
    ensures { WordOf (λ row. Has row atom) word result }
{
    if atom < IN_WORD {
        return PATTERNS[atom as usize];
    }
    if sets::has(word as u64, atom - IN_WORD) {
        return u64::MAX;
    }
    0
}

// The rows of a word that meet the clause.
fn met(clause: Clause, word: usize) -> u64
    ensures { WordOf (Meets clause) word result }
{
    let first = u64::from(clause.first());
    let second = u64::from(clause.second());
    let mut rows = 0;
    for atom in 0..ATOMS {
        let yes = yes(atom, word);
        if sets::has(first, atom) {
            rows |= yes;
        }
        if sets::has(second, atom) {
            rows |= !yes;
        }
    }
    rows
}

// Do all these rows of a word meet the clause?
fn all_met(clause: Clause, word: usize, rows: u64) -> bool
    ensures { Decides result ((row : ℕ) → row / 64 ≡ word → Has rows (row % 64) → Meets clause row) }
{
    sets::within(rows, met(clause, word))
}

// A set of rows.
#[derive(Clone, Copy)]
pub struct Rows {
    words: [u64; WORDS],
    ghost whole: { length words ≡ 16 },
}

impl Rows {
    // Every row.
    pub fn every() -> Rows
        ensures { TableOf (λ _. Unit {0}) result.words }
    {
        Rows {
            words: [u64::MAX; WORDS],
        }
    }

    // Leaves the rows that meet the clause.
    pub fn meet(&mut self, clause: Clause)
        ensures { TableOf (λ row. InTable self.old.words row × Meets clause row) self.new.words }
    {
        for (word, rows) in self.words.iter_mut().enumerate() {
            *rows &= met(clause, word);
        }
    }

    // Leaves the rows that meet the sense, if there is one.
    pub fn meet_sense(&mut self, sense: Option<Clause>)
        ensures { TableOf (λ row. InTable self.old.words row × MeetsSense sense row) self.new.words }
    {
        if let Some(clause) = sense {
            self.meet(clause);
        }
    }

    // Does every row meet the clause?
    fn all_meet(&self, clause: Clause) -> bool
        ensures { Decides result ((row : ℕ) → RowOf self.now.words row → Meets clause row) }
    {
        self.words
            .iter()
            .enumerate()
            .all(|(word, rows)| all_met(clause, word, *rows))
    }

    // Is there a sense, and does every row meet it?
    pub fn all_meet_sense(&self, sense: Option<Clause>) -> bool
        ensures { Decides result (AllMeet (RowOf self.now.words) sense) }
    {
        sense.is_some_and(|clause| self.all_meet(clause))
    }
}
