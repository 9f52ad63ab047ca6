// Cases over `Given`, alone and above and below `Steps`.
use crate::report::Report;
use crate::rows::{FollowRow, NamesRow, StepRow};
use facts::Bare;
use facts::given::Given;
use facts::steps::Steps;
use std::io;

const SALT: u64 = 1 << 0;

const SOUP: u64 = 1 << 1;

const BREAD: u64 = 1 << 2;

const BUTTER: u64 = 1 << 3;

const WATER: u64 = 1 << 63;

const SALTED: [FollowRow; 4] = [
    FollowRow(0, SALT | WATER),
    FollowRow(SOUP, SALT | SOUP | WATER),
    FollowRow(SALT, SALT | WATER),
    FollowRow(SALT | SOUP | WATER, SALT | SOUP | WATER),
];

const AS_BARE: [FollowRow; 2] = [FollowRow(0, 0), FollowRow(SOUP, SOUP)];

// Salted soup brings bread, bread brings butter.
const TOLD: [StepRow; 2] = [StepRow(SALT | SOUP, 2, Ok(())), StepRow(BREAD, 3, Ok(()))];

const BROUGHT: [FollowRow; 3] = [
    FollowRow(0, SALT),
    FollowRow(SOUP, SALT | SOUP | BREAD | BUTTER),
    FollowRow(BREAD, SALT | BREAD | BUTTER),
];

const NAMED: u64 = SALT | SOUP | BREAD | BUTTER;

pub fn run(report: &mut Report) -> io::Result<()> {
    report.title("Given 0 63 over Bare")?;
    let facts = Given::new(Bare, SALT | WATER);
    report.run(&SALTED, |row| row.ask(&facts))?;
    report.run(&[NamesRow(SALT | WATER)], |row| row.ask(&facts))?;
    report.title("Given none over Bare")?;
    let facts = Given::new(Bare, 0);
    report.run(&AS_BARE, |row| row.ask(&facts))?;
    report.run(&[NamesRow(0)], |row| row.ask(&facts))?;
    run_layers(report)
}

fn run_layers(report: &mut Report) -> io::Result<()> {
    report.title("Given 0 over Steps over Bare")?;
    let mut steps = Steps::new(Bare);
    report.run(&TOLD, |row| row.tell(&mut steps))?;
    let facts = Given::new(steps, SALT);
    report.run(&BROUGHT, |row| row.ask(&facts))?;
    report.run(&[NamesRow(NAMED)], |row| row.ask(&facts))?;
    report.title("Steps over Given 0 over Bare")?;
    let mut facts = Steps::new(Given::new(Bare, SALT));
    report.run(&TOLD, |row| row.tell(&mut facts))?;
    report.run(&BROUGHT, |row| row.ask(&facts))?;
    report.run(&[NamesRow(NAMED)], |row| row.ask(&facts))
}
