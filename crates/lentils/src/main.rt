// The day of one sack of red lentils, from its coming in until its line is another dish's: each call with its answer.
#![tactic(auto)]

mod held;
mod kitchen;
mod menus;
mod old;
mod sack;
mod show;

use crate::held::Kept;
use crate::kitchen::{Kitchen, soup_brings_rolls};
use crate::show::Dishes;
use planner::Planner;
use std::io;

// The day: the kitchen whose calls are made, and the runtime that prints their answers.
#[derive(Drop)]
pub struct Day<'a> {
    rt: &'a HostRuntime,
    planner: Kitchen,
}

impl<'a> Day<'a> {
    // It begins with the facts.
    fn new(rt: &'a HostRuntime) -> io::Result<Day<'a>> {
        let planner = Planner::new(1, soup_brings_rolls(rt)?);
        Ok(Day { rt, planner })
    }

    // The dishes of a set, as they are on their lines now.
    fn dishes(&self, set: u64) -> Dishes<'_> {
        let planner = &self.planner;
        Dishes { planner, set }
    }
}

fn main(rt: HostRuntime) -> io::Result<()> {
    let mut day = Day::new(&rt)?;
    day.sack_comes_in()?;
    day.rules()?;
    day.menus("The menus, one to a page")?;
    day.ask()?;
    let kept = day.hold()?;
    match kept.as_ref().and_then(Kept::record) {
        Some(record) => {
            day.sack_is_empty()?;
            day.look_again(record)?;
        }
        None => println!(rt; "no record")?,
    }
    day.menus("The menus now")
}
