// Facts told by clauses over atoms, and lines whose sense is a clause.
#![tactic(auto)]

pub mod clause;
pub mod clauses;
