// Runs a table of cases over facts of every kind and prints each with its answer, then how many failed.
#![tactic(auto)]

mod clause_cases;
mod given_cases;
mod house_cases;
mod report;
mod rows;
mod step_cases;

use crate::report::Report;
use std::io;

fn main(rt: HostRuntime) -> io::Result<()> {
    let mut report = Report::new(&rt);
    step_cases::run(&mut report)?;
    given_cases::run(&mut report)?;
    clause_cases::run(&mut report)?;
    house_cases::run(&mut report)?;
    report.end()
}
