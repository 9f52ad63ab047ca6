// Scripts whose answers were worked out by hand from the rules. Each is run and compared.
#![tactic(auto)]

mod longest;
mod menus;
mod refusals;
mod runs;
mod shapes;
mod trial;

use crate::trial::Trial;
use std::io;

// A script's name, the script, and its answers.
pub struct Case(pub &'static str, pub &'static [u8], pub &'static [u8]);

fn main(rt: HostRuntime) -> io::Result<()> {
    let mut trial = Trial::new(&rt);
    for tables in [shapes::ALL, refusals::ALL, runs::ALL, menus::ALL] {
        for cases in tables {
            trial.run_all(cases)?;
        }
    }
    longest::run(&mut trial)?;
    trial.end()
}
