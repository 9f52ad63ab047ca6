// The kitchen book: statements on lines, rules in places, and the holds that are out.
#![tactic(auto)]

pub mod book;
pub mod rows;
pub mod text;
