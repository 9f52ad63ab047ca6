// What callers of a planner have from the law over every list of calls, and not from the code behind it.
#![tactic(auto)]

pub mod reading;
pub mod rewritten;
