// Records too long to be written out.
use crate::show::Answer;
use record::read::read;
use std::alloc::{AllocError, Global};
use std::io;

// Entries whose lines rise one by one from 0 to the highest, and stay there; their numbers rise from 1 on.
struct Stairs {
    name: &'static str,
    count: u8,
    highest: u8,
}

const STAIRS: &[Stairs] = &[
    Stairs {
        name: "64 entries",
        count: 64,
        highest: 63,
    },
    Stairs {
        name: "64 entries, the last on line 62 again",
        count: 64,
        highest: 62,
    },
    Stairs {
        name: "65 entries, the last on line 64",
        count: 65,
        highest: 64,
    },
    Stairs {
        name: "65 entries, the last on line 63 again",
        count: 65,
        highest: 63,
    },
    Stairs {
        name: "255 entries on lines 0 to 254",
        count: 255,
        highest: 254,
    },
    Stairs {
        name: "255 entries, all on line 0",
        count: 255,
        highest: 0,
    },
];

pub fn run(rt: &HostRuntime) -> io::Result<()> {
    println!(rt; "= Many entries")?;
    for stairs in STAIRS {
        read_stairs(rt, stairs)?;
    }
    println!(rt; "= Many bytes")?;
    read_zeros(rt, "65,535 bytes behind the length 65,535", 65_537)?;
    read_zeros(rt, "65,536 bytes behind the length 65,535", 65_538)
}

// Numbers to 255 have been given out.
fn read_stairs(rt: &HostRuntime, stairs: &Stairs) -> io::Result<()> {
    let bytes = record_of(rt.alloc(), stairs)?;
    let answer = Answer(read(&bytes, 256));
    let name = stairs.name;
    println!(rt; "{name}: {answer}")
}

// The bytes, each put where the layout says.
fn record_of(heap: Global, stairs: &Stairs) -> Result<Vec<u8>, AllocError> {
    let count = stairs.count;
    let [high, low] = (2 + 3 * u16::from(count)).to_be_bytes();
    let mut bytes = vec![in heap; high, low, 1, count]?;
    for place in 0..count {
        bytes.extend_from_slice(&[place.min(stairs.highest), 0, place + 1])?;
    }
    Ok(bytes)
}

// The length 65,535, version 1, and then zeros, the first of which is the count.
fn read_zeros(rt: &HostRuntime, name: &str, total: usize) -> io::Result<()> {
    let mut bytes = vec![in rt.alloc(); 255, 255, 1]?;
    bytes.resize(total, 0)?;
    let answer = Answer(read(&bytes, 256));
    println!(rt; "{name}: {answer}")
}
