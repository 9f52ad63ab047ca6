// Entries that are written into a buffer.
use crate::FILLER;
use record::entries::Entry;
use record::write::write;
use shown::Bytes;
use std::io;

// What is special about the entries or the buffer, the entries, and the buffer's length.
struct Case(&'static str, &'static [Entry], usize);

pub fn run(rt: &HostRuntime) -> io::Result<()> {
    println!(rt; "= Writing")?;
    for cases in [ROOM, WIDTHS, ANY] {
        write_all(rt, cases)?;
    }
    println!(rt; "= Writing many entries")?;
    write_many(rt, "255 entries", 255)?;
    write_many(rt, "256 entries", 256)
}

fn write_all(rt: &HostRuntime, cases: &[Case]) -> io::Result<()> {
    for Case(name, entries, length) in cases {
        let mut buffer = vec![in rt.alloc(); FILLER; *length]?;
        tell(rt, name, write(entries, &mut buffer))?;
        let after = Bytes(&buffer);
        println!(rt; ", buffer{after}")?;
    }
    Ok(())
}

fn tell(rt: &HostRuntime, name: &str, answer: Option<usize>) -> io::Result<()> {
    match answer {
        Some(total) => print!(rt; "{name}: {total} bytes"),
        None => print!(rt; "{name}: not written"),
    }
}

// Each on line 7 with number 8, in a buffer of 1,000 bytes.
fn write_many(rt: &HostRuntime, name: &str, count: usize) -> io::Result<()> {
    let entries = vec![in rt.alloc(); Entry { line: 7, number: 8 }; count]?;
    let mut buffer = [FILLER; 1_000];
    tell(rt, name, write(&entries, &mut buffer))?;
    let fillers = buffer.iter().filter(|byte| **byte == FILLER).count();
    let front = Bytes(&buffer[..8]);
    println!(rt; ", buffer begins{front} and has {fillers} bytes ee")
}

const TWO: &[Entry] = &[Entry { line: 0, number: 1 }, Entry { line: 2, number: 3 }];

// 4 bytes and 3 for each entry; the rest of the buffer stays.
const ROOM: &[Case] = &[
    Case("two entries in 10 bytes", TWO, 10),
    Case("two entries in 12 bytes", TWO, 12),
    Case("two entries in 9 bytes", TWO, 9),
    Case("no entries in 4 bytes", &[], 4),
    Case("no entries in 3 bytes", &[], 3),
    Case("no entries in no bytes", &[], 0),
];

// A line fits one byte, a number two.
const WIDTHS: &[Case] = &[
    Case(
        "number 258",
        &[Entry {
            line: 63,
            number: 258,
        }],
        8,
    ),
    Case(
        "the highest line and number",
        &[Entry {
            line: 255,
            number: 65_535,
        }],
        8,
    ),
    Case(
        "line 256",
        &[Entry {
            line: 256,
            number: 1,
        }],
        8,
    ),
    Case(
        "number 65536",
        &[Entry {
            line: 0,
            number: 65_536,
        }],
        8,
    ),
    Case(
        "line 256 in the second entry",
        &[
            Entry { line: 0, number: 1 },
            Entry {
                line: 256,
                number: 2,
            },
        ],
        11,
    ),
];

// What fits its bytes is written, also if no reader would take it.
const ANY: &[Case] = &[Case(
    "falling lines, number 0",
    &[Entry { line: 2, number: 0 }, Entry { line: 1, number: 0 }],
    11,
)];
