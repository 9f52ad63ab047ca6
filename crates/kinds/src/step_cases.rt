// Cases over `Bare` and over `Steps`.
use crate::report::Report;
use crate::rows::{FollowRow, NamesRow, StepRow};
use facts::Bare;
use facts::steps::Steps;
use std::io;

const SOUP: u64 = 1 << 1;

const BREAD: u64 = 1 << 2;

const BUTTER: u64 = 1 << 3;

const PIE: u64 = 1 << 4;

const SAUCE: u64 = 1 << 5;

const HIGHEST: u64 = 1 << 63;

const BARE: [FollowRow; 3] = [
    FollowRow(0, 0),
    FollowRow(SOUP | HIGHEST, SOUP | HIGHEST),
    FollowRow(u64::MAX, u64::MAX),
];

// Soup brings bread, both bring butter; pie and sauce bring each other.
const TOLD: [StepRow; 5] = [
    StepRow(SOUP, 2, Ok(())),
    StepRow(SOUP | BREAD, 3, Ok(())),
    StepRow(PIE, 5, Ok(())),
    StepRow(SAUCE, 4, Ok(())),
    StepRow(SOUP, 64, Err(1)),
];

const BROUGHT: [FollowRow; 6] = [
    FollowRow(0, 0),
    FollowRow(SOUP, SOUP | BREAD | BUTTER),
    FollowRow(BREAD, BREAD),
    FollowRow(SAUCE, PIE | SAUCE),
    FollowRow(BREAD | PIE, BREAD | PIE | SAUCE),
    FollowRow(SOUP | HIGHEST, SOUP | BREAD | BUTTER | HIGHEST),
];

pub fn run(report: &mut Report) -> io::Result<()> {
    report.title("Bare")?;
    report.run(&BARE, |row| row.ask(&Bare))?;
    report.run(&[NamesRow(0)], |row| row.ask(&Bare))?;
    report.title("Steps over Bare")?;
    let mut facts = Steps::new(Bare);
    report.run(&TOLD, |row| row.tell(&mut facts))?;
    report.run(&BROUGHT, |row| row.ask(&facts))?;
    report.run(
        &[NamesRow(SOUP | BREAD | BUTTER | PIE | SAUCE)],
        |row| row.ask(&facts),
    )?;
    run_full(report)
}

// Each line below 32 brings the next, told from the far end.
const CHAIN: [StepRow; 32] = [
    StepRow(1 << 31, 32, Ok(())),
    StepRow(1 << 30, 31, Ok(())),
    StepRow(1 << 29, 30, Ok(())),
    StepRow(1 << 28, 29, Ok(())),
    StepRow(1 << 27, 28, Ok(())),
    StepRow(1 << 26, 27, Ok(())),
    StepRow(1 << 25, 26, Ok(())),
    StepRow(1 << 24, 25, Ok(())),
    StepRow(1 << 23, 24, Ok(())),
    StepRow(1 << 22, 23, Ok(())),
    StepRow(1 << 21, 22, Ok(())),
    StepRow(1 << 20, 21, Ok(())),
    StepRow(1 << 19, 20, Ok(())),
    StepRow(1 << 18, 19, Ok(())),
    StepRow(1 << 17, 18, Ok(())),
    StepRow(1 << 16, 17, Ok(())),
    StepRow(1 << 15, 16, Ok(())),
    StepRow(1 << 14, 15, Ok(())),
    StepRow(1 << 13, 14, Ok(())),
    StepRow(1 << 12, 13, Ok(())),
    StepRow(1 << 11, 12, Ok(())),
    StepRow(1 << 10, 11, Ok(())),
    StepRow(1 << 9, 10, Ok(())),
    StepRow(1 << 8, 9, Ok(())),
    StepRow(1 << 7, 8, Ok(())),
    StepRow(1 << 6, 7, Ok(())),
    StepRow(1 << 5, 6, Ok(())),
    StepRow(1 << 4, 5, Ok(())),
    StepRow(1 << 3, 4, Ok(())),
    StepRow(1 << 2, 3, Ok(())),
    StepRow(1 << 1, 2, Ok(())),
    StepRow(1 << 0, 1, Ok(())),
];

// A 33rd step; and one that gives no line, which is the first ground.
const PAST: [StepRow; 2] = [StepRow(1 << 32, 40, Err(19)), StepRow(1 << 32, 64, Err(1))];

// Lines 0 to 32.
const ALL: u64 = 0x1_FFFF_FFFF;

const ALONG: [FollowRow; 3] = [
    FollowRow(1 << 0, ALL),
    FollowRow(1 << 30, 0x1_C000_0000),
    FollowRow(1 << 32, 1 << 32),
];

fn run_full(report: &mut Report) -> io::Result<()> {
    report.title("Steps, as many as there may be")?;
    let mut facts = Steps::new(Bare);
    report.run(&CHAIN, |row| row.tell(&mut facts))?;
    report.run(&PAST, |row| row.tell(&mut facts))?;
    report.run(&ALONG, |row| row.ask(&facts))?;
    report.run(&[NamesRow(ALL)], |row| row.ask(&facts))
}
