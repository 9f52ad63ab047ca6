// Cases over `Clauses`.
use crate::report::Report;
use crate::rows::{ClauseRow, FollowRow, NamesRow, SenseRow};
use clauses::clauses::Clauses;
use std::io;

// What is told to new facts, what they are asked then, and the lines that they name.
struct Case {
    name: &'static str,
    clauses: &'static [ClauseRow],
    senses: &'static [SenseRow],
    follows: &'static [FollowRow],
    names: &'static [NamesRow],
}

pub fn run(report: &mut Report) -> io::Result<()> {
    run_case(report, &CHAIN)?;
    run_case(report, &EITHER)?;
    run_case(report, &CONTRADICTION)?;
    run_senses(report)?;
    run_case(report, &NEVER)?;
    run_case(report, &REFUSALS)?;
    run_full(report)
}

fn run_case(report: &mut Report, case: &Case) -> io::Result<()> {
    let mut facts = Clauses::new();
    report.title(case.name)?;
    report.run(case.clauses, |row| row.tell(&mut facts))?;
    report.run(case.senses, |row| row.tell(&mut facts))?;
    report.run(case.follows, |row| row.ask(&facts))?;
    report.run(case.names, |row| row.ask(&facts))
}

const CHAIN: Case = Case {
    name: "Clauses in a chain",
    // Atoms 0, 1 and 2 are a, b and c: not a or b, not b or c.
    clauses: &[
        ClauseRow(0b010, 0b001, Ok(())),
        ClauseRow(0b100, 0b010, Ok(())),
    ],
    // Lines 10 to 12 say a, b, c; line 13 says d; lines 14 and 15 say not c, not a.
    senses: &[
        SenseRow(10, 0b0001, 0, Ok(())),
        SenseRow(11, 0b0010, 0, Ok(())),
        SenseRow(12, 0b0100, 0, Ok(())),
        SenseRow(13, 0b1000, 0, Ok(())),
        SenseRow(14, 0, 0b0100, Ok(())),
        SenseRow(15, 0, 0b0001, Ok(())),
    ],
    // Line 3 and line 63 have no sense: they stay, and add nothing.
    follows: &[
        FollowRow(0, 0),
        FollowRow(1 << 10, 0b111 << 10),
        FollowRow(1 << 11, 0b110 << 10),
        FollowRow(1 << 12, 0b100 << 10),
        FollowRow(1 << 13, 1 << 13),
        FollowRow(1 << 14, 0b110000 << 10),
        FollowRow(1 << 10 | 1 << 14, 0b111111 << 10),
        FollowRow(1 << 3 | 1 << 63, 1 << 3 | 1 << 63),
        FollowRow(1 << 3 | 1 << 11, 1 << 3 | 0b110 << 10),
    ],
    names: &[NamesRow(0b111111 << 10)],
};

const EITHER: Case = Case {
    name: "Clauses, one of two atoms",
    // Atom 6 or atom 9, and either brings atom 8.
    clauses: &[
        ClauseRow(0b10_0100_0000, 0, Ok(())),
        ClauseRow(0b01_0000_0000, 0b00_0100_0000, Ok(())),
        ClauseRow(0b01_0000_0000, 0b10_0000_0000, Ok(())),
    ],
    // Line 0 says atom 8, line 1 atom 6, line 2 not atom 6, line 3 atom 9.
    senses: &[
        SenseRow(0, 0b01_0000_0000, 0, Ok(())),
        SenseRow(1, 0b00_0100_0000, 0, Ok(())),
        SenseRow(2, 0, 0b00_0100_0000, Ok(())),
        SenseRow(3, 0b10_0000_0000, 0, Ok(())),
    ],
    follows: &[
        FollowRow(0, 0b0001),
        FollowRow(0b0010, 0b0011),
        FollowRow(0b0100, 0b1101),
        FollowRow(0b0110, 0b1111),
    ],
    names: &[NamesRow(0b1111)],
};

const CONTRADICTION: Case = Case {
    name: "Clauses that contradict each other",
    // Atom 0, and not atom 0: no row meets both.
    clauses: &[ClauseRow(1, 0, Ok(())), ClauseRow(0, 1, Ok(()))],
    senses: &[
        SenseRow(0, 0b10_0000, 0, Ok(())),
        SenseRow(7, 0, 0, Ok(())),
        SenseRow(63, 0b10, 0b100, Ok(())),
    ],
    // Then every line with a sense follows.
    follows: &[
        FollowRow(0, 1 << 0 | 1 << 7 | 1 << 63),
        FollowRow(1 << 3, 1 << 0 | 1 << 3 | 1 << 7 | 1 << 63),
        FollowRow(1 << 7, 1 << 0 | 1 << 7 | 1 << 63),
    ],
    names: &[NamesRow(1 << 0 | 1 << 7 | 1 << 63)],
};

// Line 4 says atom 3 or not atom 3, which each row meets; line 5 says atom 3; line 6 says nothing that a row could meet.
const SENSES: [SenseRow; 3] = [
    SenseRow(4, 0b1000, 0b1000, Ok(())),
    SenseRow(5, 0b1000, 0, Ok(())),
    SenseRow(6, 0, 0, Ok(())),
];

const SENSED: [FollowRow; 5] = [
    FollowRow(0, 1 << 4),
    FollowRow(1 << 5, 1 << 4 | 1 << 5),
    FollowRow(1 << 6, 1 << 4 | 1 << 5 | 1 << 6),
    FollowRow(1 << 9, 1 << 4 | 1 << 9),
    FollowRow(1 << 6 | 1 << 9, 1 << 4 | 1 << 5 | 1 << 6 | 1 << 9),
];

// No line has a sense at first.
fn run_senses(report: &mut Report) -> io::Result<()> {
    let mut facts = Clauses::new();
    report.title("Clauses, senses always met and never met")?;
    report.run(&[NamesRow(0)], |row| row.ask(&facts))?;
    report.run(&SENSES, |row| row.tell(&mut facts))?;
    report.run(&SENSED, |row| row.ask(&facts))?;
    report.run(&[NamesRow(1 << 4 | 1 << 5 | 1 << 6)], |row| row.ask(&facts))
}

const NEVER: Case = Case {
    name: "Clauses, a fact never met",
    // The clause of empty sets as a fact: no row meets it.
    clauses: &[ClauseRow(0, 0, Ok(()))],
    senses: &SENSES,
    follows: &[FollowRow(1 << 9, 1 << 4 | 1 << 5 | 1 << 6 | 1 << 9)],
    names: &[],
};

const REFUSALS: Case = Case {
    name: "Clauses, refusals",
    // A set of 1,024 or above; the highest set is 1,023.
    clauses: &[
        ClauseRow(1_024, 0, Err(18)),
        ClauseRow(0, 1_024, Err(18)),
        ClauseRow(u32::MAX, u32::MAX, Err(18)),
        ClauseRow(1_023, 1_023, Ok(())),
    ],
    // Grounds in order: no such line, then a high set, then a second sense.
    senses: &[
        SenseRow(64, 1, 0, Err(1)),
        SenseRow(64, 1_024, 0, Err(1)),
        SenseRow(0, 1_024, 0, Err(18)),
        SenseRow(0, 0, 1_024, Err(18)),
        SenseRow(0, 1, 0, Ok(())),
        SenseRow(0, 1, 1, Err(20)),
        SenseRow(0, 1_024, 1, Err(18)),
        SenseRow(63, 1, 0b10, Ok(())),
    ],
    // What was refused changed nothing: line 0 still says atom 0, and not what is always met.
    follows: &[
        FollowRow(0, 0),
        FollowRow(1 << 0, 1 << 0 | 1 << 63),
        FollowRow(1 << 63, 1 << 63),
    ],
    names: &[NamesRow(1 << 0 | 1 << 63)],
};

const ALWAYS: ClauseRow = ClauseRow(1, 1, Ok(()));

// As many clauses as there may be: the last says atom 0.
const FILLED: [ClauseRow; 23] = [ALWAYS; 23];

const LAST: [ClauseRow; 3] = [
    ClauseRow(1, 0, Ok(())),
    ClauseRow(0b10, 0, Err(19)),
    ClauseRow(1_024, 0, Err(18)),
];

// Line 1 says atom 0, line 2 says atom 1, which the refused clause would have told.
const FULL_SENSES: [SenseRow; 2] = [SenseRow(1, 1, 0, Ok(())), SenseRow(2, 0b10, 0, Ok(()))];

const FULL: [FollowRow; 2] = [FollowRow(0, 1 << 1), FollowRow(1 << 2, 1 << 1 | 1 << 2)];

fn run_full(report: &mut Report) -> io::Result<()> {
    let mut facts = Clauses::new();
    report.title("Clauses, as many as there may be")?;
    report.run(&FILLED, |row| row.tell(&mut facts))?;
    report.run(&LAST, |row| row.tell(&mut facts))?;
    report.run(&FULL_SENSES, |row| row.tell(&mut facts))?;
    report.run(&FULL, |row| row.ask(&facts))
}
