// Entries that are written and read back, and bytes that are read and written again.
use crate::FILLER;
use crate::show::Answer;
use record::entries::Entry;
use record::read::read;
use record::write::write;
use shown::Bytes;
use std::io;

// The first number that has not been given out.
const NEXT: u32 = 1_001;

pub fn run(rt: &HostRuntime) -> io::Result<()> {
    println!(rt; "= Written, then read")?;
    for entries in MENUS {
        write_and_read(rt, entries)?;
    }
    println!(rt; "= Read, then written")?;
    for bytes in RECORDS {
        read_and_write(rt, bytes)?;
    }
    Ok(())
}

const MENUS: &[&[Entry]] = &[
    &[],
    &[Entry { line: 0, number: 1 }],
    &[Entry { line: 0, number: 1 }, Entry { line: 2, number: 3 }],
    &[
        Entry {
            line: 7,
            number: 512,
        },
        Entry {
            line: 8,
            number: 258,
        },
        Entry {
            line: 63,
            number: 1_000,
        },
    ],
    &[
        Entry {
            line: 8,
            number: 258,
        },
        Entry {
            line: 8,
            number: 258,
        },
    ],
];

pub fn write_and_read(rt: &HostRuntime, entries: &[Entry]) -> io::Result<()> {
    let mut buffer = [FILLER; 200];
    match write(entries, &mut buffer) {
        Some(total) => {
            let answer = Answer(read(&buffer[..total], NEXT));
            println!(rt; "{total} bytes: {answer}")
        }
        None => println!(rt; "not written"),
    }
}

const RECORDS: &[&[u8]] = &[
    &[0, 2, 1, 0],
    &[0, 8, 1, 2, 0, 0, 1, 2, 0, 3],
    &[0, 11, 1, 3, 7, 2, 0, 8, 1, 2, 63, 3, 232],
];

fn read_and_write(rt: &HostRuntime, bytes: &[u8]) -> io::Result<()> {
    let before = Bytes(bytes);
    print!(rt; "read{before},")?;
    let Ok(entries) = read(bytes, NEXT) else {
        return println!(rt; " with a fault");
    };
    let mut buffer = [FILLER; 16];
    match write(entries.as_slice(), &mut buffer) {
        Some(_) => {
            let after = Bytes(&buffer);
            println!(rt; " buffer{after}")
        }
        None => println!(rt; " not written"),
    }
}
