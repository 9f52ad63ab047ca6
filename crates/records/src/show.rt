// How entries, bytes and answers are printed.
use record::entries::{Entries, Entry};
use record::fault::Fault;
use std::fmt;

// Entries, each after a space as its line and its number.
#[derive(Drop)]
pub struct Listed<'a>(pub &'a [Entry]);

impl fmt::Display for Listed<'_> {
    fn fmt<W: fmt::Write>(&self, f: &mut fmt::Formatter<W>) -> fmt::Result {
        if self.0.is_empty() {
            write!(f, " none")?;
        }
        for entry in self.0 {
            let line = entry.line;
            let number = entry.number;
            write!(f, " {line}={number}")?;
        }
        Ok(())
    }
}

// What reading answered: the entries, or the fault with its number and its place.
#[derive(Drop)]
pub struct Answer(pub Result<Entries, Fault>);

impl fmt::Display for Answer {
    fn fmt<W: fmt::Write>(&self, f: &mut fmt::Formatter<W>) -> fmt::Result {
        match &self.0 {
            Ok(entries) => {
                let listed = Listed(entries.as_slice());
                write!(f, "read{listed}")
            }
            Err(fault) => {
                let number = fault.number();
                let place = fault.place();
                write!(f, "fault {number} at {place}")
            }
        }
    }
}
