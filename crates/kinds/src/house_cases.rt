// Cases over the four layers: Given over Steps over Given over Clauses.
use crate::report::{Members, Report};
use crate::rows::{ClauseRow, FollowRow, NamesRow, SenseRow, StepRow};
use clauses::clauses::Clauses;
use facts::given::Given;
use facts::steps::Steps;
use stack::house;
use std::io;

// Atom 0 brings atom 1.
const TOLD: [ClauseRow; 1] = [ClauseRow(0b010, 0b001, Ok(()))];

// Lines 1, 2 and 3 say atoms 0, 1 and 2. Line 4 says that atom 1 brings atom 2. Line 9 says not atom 2, line 10 not atom 0.
const SENSES: [SenseRow; 6] = [
    SenseRow(1, 0b001, 0, Ok(())),
    SenseRow(2, 0b010, 0, Ok(())),
    SenseRow(3, 0b100, 0, Ok(())),
    SenseRow(4, 0b100, 0b010, Ok(())),
    SenseRow(9, 0, 0b100, Ok(())),
    SenseRow(10, 0, 0b001, Ok(())),
];

// Line 3 brings line 5, lines 5 and 6 bring line 7, line 8 brings line 1.
const STEPS: [StepRow; 3] = [
    StepRow(1 << 3, 5, Ok(())),
    StepRow(1 << 5 | 1 << 6, 7, Ok(())),
    StepRow(1 << 8, 1, Ok(())),
];

const INNER: u64 = 1 << 4;

const OUTER: u64 = 1 << 6;

// With line 4 given below and line 6 above.
const FOLLOWS: [FollowRow; 8] = [
    FollowRow(0, 0b000_0101_0000),
    FollowRow(1 << 1, 0b000_1111_1110),
    FollowRow(1 << 2, 0b000_1111_1100),
    FollowRow(1 << 5, 0b000_1111_0000),
    FollowRow(1 << 8, 0b001_1111_1110),
    FollowRow(1 << 9, 0b110_0101_0000),
    FollowRow(1 << 1 | 1 << 9, 0b110_1111_1110),
    FollowRow(1 << 12, 0b1_0000_0101_0000),
];

// Lines 1 to 10.
const NAMED: u64 = 0b111_1111_1110;

pub fn run(report: &mut Report) -> io::Result<()> {
    report.title("Given 6 over Steps over Given 4 over Clauses")?;
    let mut bottom = Clauses::new();
    report.run(&TOLD, |row| row.tell(&mut bottom))?;
    report.run(&SENSES, |row| row.tell(&mut bottom))?;
    let mut steps = Steps::new(Given::new(bottom, INNER));
    report.run(&STEPS, |row| row.tell(&mut steps))?;
    let facts = Given::new(steps, OUTER);
    report.run(&FOLLOWS, |row| Members(house::ask(&facts, row.0)))?;
    report.run(&[NamesRow(NAMED)], |_| Members(house::names(&facts)))
}
