// The record of a saved menu: its lines with their numbers, as bytes.
#![tactic(auto)]

pub mod entries;
pub mod fault;
pub mod read;
pub mod write;

// The version of the layout that is written and read.
const VERSION: u8 = 1;

// How many bytes stand in front of the entries: the length in two, the version, the count.
const FRONT_BYTES: usize = 4;

// How many bytes an entry takes: its line in one, its number in two.
const ENTRY_BYTES: usize = 3;
