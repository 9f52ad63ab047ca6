// Bytes that are read.
use crate::show::Answer;
use record::read::read;
use std::io;

// What is special about the bytes, the first number not given out, and the bytes.
struct Case(&'static str, u32, &'static [u8]);

// What the cases are about.
struct Group(&'static str, &'static [Case]);

const GROUPS: &[Group] = &[
    Group("Length", LENGTHS),
    Group("Version", VERSIONS),
    Group("Count", COUNTS),
    Group("Lines", LINES),
    Group("Numbers, of so many given out", NUMBERS),
    Group("Several faults", SEVERAL),
];

pub fn run(rt: &HostRuntime) -> io::Result<()> {
    for Group(title, cases) in GROUPS {
        println!(rt; "= {title}")?;
        read_all(rt, cases)?;
    }
    Ok(())
}

fn read_all(rt: &HostRuntime, cases: &[Case]) -> io::Result<()> {
    for Case(name, next, bytes) in cases {
        let answer = Answer(read(bytes, *next));
        println!(rt; "{name}: {answer}")?;
    }
    Ok(())
}

// At least 4 bytes, and as many behind the first two as these say.
const LENGTHS: &[Case] = &[
    Case("no bytes", 4, &[]),
    Case("one byte", 4, &[0]),
    Case("two bytes that say 0", 4, &[0, 0]),
    Case("three bytes that say 1", 4, &[0, 1, 1]),
    Case("four bytes that say 2", 4, &[0, 2, 1, 0]),
    Case("four bytes that say 1", 4, &[0, 1, 1, 0]),
    Case("four bytes that say 3", 4, &[0, 3, 1, 0]),
    Case("four bytes that say 258", 4, &[1, 2, 1, 0]),
    Case("a byte left out", 4, &[0, 8, 1, 2, 0, 0, 1, 2, 0]),
    Case("a byte more", 4, &[0, 8, 1, 2, 0, 0, 1, 2, 0, 3, 0]),
    Case("low byte first", 4, &[8, 0, 1, 2, 0, 0, 1, 2, 0, 3]),
];

const VERSIONS: &[Case] = &[
    Case("version 0", 4, &[0, 5, 0, 1, 0, 0, 1]),
    Case("version 1", 4, &[0, 5, 1, 1, 0, 0, 1]),
    Case("version 2", 4, &[0, 5, 2, 1, 0, 0, 1]),
];

// Three bytes for each entry, behind version and count.
const COUNTS: &[Case] = &[
    Case("two entries", 4, &[0, 8, 1, 2, 0, 0, 1, 2, 0, 3]),
    Case("one too few", 4, &[0, 8, 1, 1, 0, 0, 1, 2, 0, 3]),
    Case("one too many", 4, &[0, 8, 1, 3, 0, 0, 1, 2, 0, 3]),
    Case("none, before an entry", 4, &[0, 5, 1, 0, 0, 0, 1]),
    Case("one, before nothing", 4, &[0, 2, 1, 1]),
    Case("one, before two bytes", 4, &[0, 4, 1, 1, 0, 0]),
    Case("one, before four bytes", 4, &[0, 6, 1, 1, 0, 0, 1, 0]),
];

// From 0 to 63, rising strictly.
const LINES: &[Case] = &[
    Case("line 63", 4, &[0, 5, 1, 1, 63, 0, 1]),
    Case("line 64", 4, &[0, 5, 1, 1, 64, 0, 1]),
    Case("lines 62 and 63", 4, &[0, 8, 1, 2, 62, 0, 1, 63, 0, 2]),
    Case("lines 63 and 64", 4, &[0, 8, 1, 2, 63, 0, 1, 64, 0, 2]),
    Case("line 0 twice", 4, &[0, 8, 1, 2, 0, 0, 1, 0, 0, 2]),
    Case("lines 5 and 4", 4, &[0, 8, 1, 2, 5, 0, 1, 4, 0, 2]),
    Case(
        "lines 1, 5 and 3",
        4,
        &[0, 11, 1, 3, 1, 0, 1, 5, 0, 2, 3, 0, 3],
    ),
];

// From 1 on and below the first that is not given out, high byte first; in any order.
const NUMBERS: &[Case] = &[
    Case("number 0 of 3", 4, &[0, 5, 1, 1, 0, 0, 0]),
    Case("number 1 of none", 1, &[0, 5, 1, 1, 0, 0, 1]),
    Case("number 1 of one", 2, &[0, 5, 1, 1, 0, 0, 1]),
    Case("number 3 of 3", 4, &[0, 5, 1, 1, 0, 0, 3]),
    Case("number 4 of 3", 4, &[0, 5, 1, 1, 0, 0, 4]),
    Case("number 258 of 258", 259, &[0, 5, 1, 1, 9, 1, 2]),
    Case("number 258 of 257", 258, &[0, 5, 1, 1, 9, 1, 2]),
    Case("number 65535 of 65535", 65_536, &[0, 5, 1, 1, 9, 255, 255]),
    Case("number 65535 of 65534", 65_535, &[0, 5, 1, 1, 9, 255, 255]),
    Case("the empty menu of none", 1, &[0, 2, 1, 0]),
    Case("numbers 3 and 1", 4, &[0, 8, 1, 2, 0, 0, 3, 1, 0, 1]),
    Case("number 2 twice", 4, &[0, 8, 1, 2, 0, 0, 2, 1, 0, 2]),
    Case("numbers 1 and 4 of 3", 4, &[0, 8, 1, 2, 0, 0, 1, 1, 0, 4]),
];

// The first in the order of length, version, count and entries is told.
const SEVERAL: &[Case] = &[
    Case("length, version and count", 4, &[0, 3, 2, 1]),
    Case("version and count", 4, &[0, 2, 2, 1]),
    Case("version and entry", 4, &[0, 5, 2, 1, 64, 0, 0]),
    Case("count and entry", 4, &[0, 5, 1, 2, 64, 0, 0]),
    Case("line and number", 4, &[0, 5, 1, 1, 64, 0, 0]),
    Case(
        "the first and the second entry",
        4,
        &[0, 8, 1, 2, 7, 0, 4, 6, 0, 1],
    ),
    Case(
        "the second and the third entry",
        4,
        &[0, 11, 1, 3, 0, 0, 1, 1, 0, 0, 1, 0, 1],
    ),
];
