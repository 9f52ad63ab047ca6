// Words: 1 to 24 bytes, each from 33 to 126.
ghost use Rattle.std.specs.Prelude.{◌≡◌, ◌≤◌, length, Decides};
ghost use Rattle.book.specs.Words.{GoodWords, text_grounds};
ghost use Rattle.sets.specs.Grounds.{Answered};
ghost use Rattle.std.specs.List.{AllByRecursion};

use sets::refusal::Refusal;
use std::marker::Model;

// The most bytes that words take.
pub const MOST_BYTES: usize = 24;

const FIRST_PRINTED: u8 = 33;

const LAST_PRINTED: u8 = 126;

// Words, and zeros behind them.
#[derive(Clone, Copy)]
pub struct Words {
    bytes: [u8; MOST_BYTES],
    len: usize,
}

impl Model for Words {
    ghost use Rattle.std.specs.Prelude.{◌≡◌, ℕ, ◌-◌, ◌≤◌, List, ◌++◌, length, take, replicate};
    ghost use Rattle.book.specs.Words.{padded, padded_back};

    ghost Value = { List ℕ };

    ghost view = { λ w. take w.len w.bytes };

    ghost invariant = { λ w. (w.len ≤ 24) × (length w.bytes ≡ 24) × (w.bytes ≡ padded (take w.len w.bytes)) };

    ghost inverse = { λ words. record { bytes = padded words; len = length words } };

    ghost inverse_ok = { λ w kept. padded_back (λ bytes len. record { bytes = bytes; len = len }) w.bytes w.len kept.0 kept.1 kept.2 };
}

impl Words {
    // These bytes, if they may stand on a line.
    pub fn new(words: &[u8]) -> Result<Words, Refusal>
        ensures { Answered (text_grounds words.now) (λ w. w ≡ words.now) (Unit {0}) result }
    {
        if !good(words) {
            return Err(Refusal::BadWords);
        }
        let mut bytes = [0; MOST_BYTES];
        bytes[..words.len()].copy_from_slice(words);
        Ok(Words {
            bytes,
            len: words.len(),
        })
    }

    // The bytes of the words.
    pub fn as_slice(&self) -> &[u8]
        ensures value { result.now ≡ self.now }
        ensures few { length result.now ≤ 24 }
    {
        &self.bytes[..self.len]
    }
}

// Is every byte a printable one, and none a space?
fn printable(words: &[u8]) -> bool
    ensures { Decides result (AllByRecursion (λ b. (33 ≤ b) × (b ≤ 126)) words.now) }
{
    words
        .iter()
        .all(|byte| (FIRST_PRINTED..=LAST_PRINTED).contains(byte))
}

// May these words stand on a line?
fn good(words: &[u8]) -> bool
    ensures { Decides result (GoodWords words.now) }
{
    (1..=MOST_BYTES).contains(&words.len()) && printable(words)
}
