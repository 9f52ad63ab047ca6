// Reads a record.
ghost use Rattle.std.specs.Prelude.{◌≡◌, ◌+◌, ◌*◌, List, Err, Decides};
ghost use Rattle.record.specs.Faults.{FaultIn, Opens, Reads, Same};
ghost use Rattle.record.specs.Record.{Fit, Good, edition, encode};
ghost use Rattle.record.specs.declared.entries.Entry.{Entry as Item};

use crate::entries::{Entries, Entry};
use crate::fault::Fault;
use crate::{ENTRY_BYTES, VERSION};

// The entries of the record that the bytes are. Numbers below `next` have been given out.
// One layout: bytes that are accepted are the record of what was read, and a record is read as what it was made of.
pub fn read(bytes: &[u8], next: u32) -> Result<Entries, Fault>
    ensures one { Reads next bytes.now result }
    ensures back { (es : List Item) → Good next es → bytes.now ≡ encode edition es → Same result es }
    ensures exact { (f : Fault) → FaultIn next bytes.now f → result ≡ Err f }
{
    let mut rest = open(bytes)?;
    let mut entries = Entries::new();
    let mut least = 0;
    while let [line, high, low, more @ ..] = rest {
        let entry = Entry {
            line: u32::from(*line),
            number: u32::from(value(*high, *low)),
        };
        if !fits(entry, least, next) {
            return Err(Fault::Entry(bytes.len() - rest.len()));
        }
        // lines that rise are 64 at most, so there is room
        entries.push(entry);
        least = entry.line + 1;
        rest = more;
    }
    Ok(entries)
}

// The bytes of the entries, if those in front of them are right.
fn open(bytes: &[u8]) -> Result<&[u8], Fault>
    ensures { Opens bytes.now result }
{
    let [high, low, version, count, rest @ ..] = bytes else {
        return Err(Fault::Length);
    };
    let length = usize::from(value(*high, *low));
    if bytes.len() != 2 + length {
        return Err(Fault::Length);
    }
    if *version != VERSION {
        return Err(Fault::Version);
    }
    if length != 2 + ENTRY_BYTES * usize::from(*count) {
        return Err(Fault::Count);
    }
    Ok(rest)
}

// May the entry stand where lines below `least` are past?
fn fits(entry: Entry, least: u32, next: u32) -> bool
    ensures { Decides result (Fit next least entry) }
{
    (least..64).contains(&entry.line) && (1..next).contains(&entry.number)
}

// Two bytes, the high one first.
fn value(high: u8, low: u8) -> u16
    ensures { result ≡ 256 * high + low }
{
    u16::from_be_bytes([high, low])
}
