// The old record is looked at, as it was saved and with a byte spoilt.
use crate::Day;
use laws::looked::Looked;
use shown::{Bytes, Lines};
use std::io;

// A place in a record, and the byte that is put there.
struct Spoilt {
    at: usize,
    byte: u8,
}

// The length, the version, the count, and the number of the second entry.
const SPOILT: &[Spoilt] = &[
    Spoilt { at: 1, byte: 12 },
    Spoilt { at: 2, byte: 2 },
    Spoilt { at: 3, byte: 4 },
    Spoilt { at: 9, byte: 6 },
];

impl Day<'_> {
    pub fn look_again(&self, record: &[u8]) -> io::Result<()> {
        println!(self.rt; "= The old record")?;
        self.look(record)?;
        for &Spoilt { at, byte } in SPOILT {
            let mut bytes = record.to_vec(self.rt.alloc())?;
            if let Some(place) = bytes.get_mut(at) {
                *place = byte;
            }
            self.look(&bytes)?;
        }
        Ok(())
    }

    fn look(&self, bytes: &[u8]) -> io::Result<()> {
        println!(self.rt; "look at{}", Bytes(bytes))?;
        match self.planner.look(bytes) {
            Ok(Looked { current, gone }) => {
                self.say("current", current)?;
                self.say("gone", gone)
            }
            Err(fault) => {
                let number = fault.number();
                let place = fault.place();
                println!(self.rt; "  refused by {number}, at byte {place}")
            }
        }
    }

    // The lines of a set, and the dishes that are on them now.
    fn say(&self, which: &str, set: u64) -> io::Result<()> {
        print!(self.rt; "  {which}: lines{}", Lines(set))?;
        println!(self.rt; ", now{}", self.dishes(set))
    }
}
