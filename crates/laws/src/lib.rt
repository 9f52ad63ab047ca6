// What the calls of a planner promise, and what holds of every list of them.
#![tactic(auto)]

pub mod listing;
pub mod looked;
