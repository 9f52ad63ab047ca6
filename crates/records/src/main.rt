// Reads and writes records from tables, and prints what comes of each.
#![tactic(auto)]

mod lists;
mod long;
mod reads;
mod show;
mod trips;
mod writes;

use std::io;

// What a buffer holds before it is written to.
const FILLER: u8 = 0xEE;

fn main(rt: HostRuntime) -> io::Result<()> {
    reads::run(&rt)?;
    long::run(&rt)?;
    writes::run(&rt)?;
    trips::run(&rt)?;
    lists::run(&rt)
}
