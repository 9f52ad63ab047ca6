// Writes a record.
ghost use Rattle.std.specs.Prelude.{◌≡◌, ℕ, ◌+◌, ◌*◌, ◌<◌, ◌≤◌, ◌++◌, length, take, drop, Some, Decides};
ghost use Rattle.record.specs.Record.{Examples, Good, edition, encode, entry_bytes, front, front_bytes, layout};
ghost use Rattle.record.specs.Writing.{InBytes, Storable, Writes, numbers_end};
ghost use Rattle.std.specs.List.{flat_map, AllByRecursion};

use crate::entries::Entry;
use crate::{ENTRY_BYTES, FRONT_BYTES, VERSION};

// The record of the entries at the buffer's start, and how many bytes it is; the rest stays.
// None, and nothing is written, if the buffer is too short or the entries do not fit their bytes.
pub fn write(entries: &[Entry], buffer: &mut [u8]) -> Option<usize>
    ensures examples { Examples }
    ensures writes { Writes entries.now buffer.old buffer.new result }
    ensures good { (next : ℕ) → next ≤ numbers_end → Good next entries.now → length (encode edition entries.now) ≤ length buffer.old → result ≡ Some (length (encode edition entries.now)) }
{
    if !storable(entries) {
        return None;
    }
    let total = FRONT_BYTES + ENTRY_BYTES * entries.len();
    if buffer.len() < total {
        return None;
    }
    put_front(entries.len(), buffer);
    put_entries(entries, buffer);
    Some(total)
}

// Do the count, the lines and the numbers fit their bytes?
fn storable(entries: &[Entry]) -> bool
    ensures { Decides result (Storable entries.now) }
{
    u8::try_from(entries.len()).is_ok()
        && entries.iter().all(|entry| u8::try_from(entry.line).is_ok()
            && u16::try_from(entry.number).is_ok())
}

// Length, version and count.
fn put_front(count: usize, buffer: &mut [u8])
    requires few { count < 256 }
    requires room { front_bytes ≤ length buffer.old }
    ensures { buffer.new ≡ front edition (2 + entry_bytes * count) count ++ drop front_bytes buffer.old }
{
    let behind = 2 + ENTRY_BYTES * count;
    let [high, low] = (behind as u16).to_be_bytes();
    buffer[..FRONT_BYTES].copy_from_slice(&[high, low, VERSION, count as u8]);
}

// The entries, behind the four bytes in front.
fn put_entries(entries: &[Entry], buffer: &mut [u8])
    requires fit { Storable entries.now }
    requires room { front_bytes + entry_bytes * length entries.now ≤ length buffer.old }
    ensures { buffer.new ≡ take front_bytes buffer.old ++ (flat_map layout entries.now ++ drop (front_bytes + entry_bytes * length entries.now) buffer.old) }
{
    for (i, entry) in entries.iter().enumerate() {
        put(*entry, FRONT_BYTES + ENTRY_BYTES * i, buffer);
    }
}

// One entry, from the place `at` on.
fn put(entry: Entry, at: usize, buffer: &mut [u8])
    requires fit { InBytes entry }
    requires room { at + entry_bytes ≤ length buffer.old }
    ensures { buffer.new ≡ take at buffer.old ++ (layout entry ++ drop (at + entry_bytes) buffer.old) }
{
    let [high, low] = (entry.number as u16).to_be_bytes();
    buffer[at..at + ENTRY_BYTES].copy_from_slice(&[entry.line as u8, high, low]);
}
