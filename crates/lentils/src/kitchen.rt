// The kitchen: its lines, its menus, its rules and its facts.
use crate::show::done;
use facts::Bare;
use facts::steps::Steps;
use planner::Planner;
use std::io;

pub type Kitchen = Planner<Steps<Bare>>;

// The lines.
pub const LENTILS: u32 = 0;

pub const SOUP: u32 = 1;

pub const TRIFLE: u32 = 2;

pub const ROLLS: u32 = 3;

// Lentils and soup, with the rolls that soup brings.
pub const SOUP_MENU: u64 = 1 << LENTILS | 1 << SOUP | 1 << ROLLS;

// The same without the rolls.
pub const NO_ROLLS: u64 = 1 << LENTILS | 1 << SOUP;

pub const TRIFLE_MENU: u64 = 1 << LENTILS | 1 << TRIFLE;

// The places of the rules that give these dishes.
pub const LENTILS_RULE: u32 = 0;

pub const SOUP_RULE: u32 = 1;

pub const TRIFLE_RULE: u32 = 2;

// The facts have one step.
pub fn soup_brings_rolls(rt: &HostRuntime) -> io::Result<Steps<Bare>> {
    println!(rt; "= The facts")?;
    let mut facts = Steps::new(Bare);
    let told = done(facts.step(1 << SOUP, ROLLS));
    println!(rt; "step, soup brings rolls: {told}")?;
    Ok(facts)
}
