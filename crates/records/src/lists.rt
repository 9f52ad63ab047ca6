// A list of entries that is filled, then written and read back.
use crate::show::Listed;
use crate::trips::write_and_read;
use record::entries::{Entries, Entry};
use std::io;

pub fn run(rt: &HostRuntime) -> io::Result<()> {
    println!(rt; "= A list")?;
    let mut entries = Entries::new();
    let listed = Listed(entries.as_slice());
    println!(rt; "new:{listed}")?;
    for line in 0u32..66 {
        if !entries.push(Entry { line, number: 9 }) {
            println!(rt; "no room for line {line}")?;
        }
    }
    let listed = Listed(entries.as_slice());
    println!(rt; "filled:{listed}")?;
    write_and_read(rt, entries.as_slice())
}
