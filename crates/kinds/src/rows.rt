// The rows of the tables: how each is printed, asked, and what it should be answered.
use crate::report::{Members, Said};
use clauses::clauses::Clauses;
use facts::Facts;
use facts::steps::Steps;
use std::fmt;

// A row of a table, printed as what is asked.
pub trait Row: fmt::Display {
    type Answer: Copy + PartialEq + fmt::Display;

    // The answer that the table says.
    fn expected(&self) -> Self::Answer;
}

// `step(needs, gives)` and its answer.
#[derive(Clone, Copy)]
pub struct StepRow(pub u64, pub u32, pub Result<(), u32>);

impl StepRow {
    pub fn tell<F>(&self, facts: &mut Steps<F>) -> Said {
        Said::from(facts.step(self.0, self.1))
    }
}

impl fmt::Display for StepRow {
    fn fmt<W: fmt::Write>(&self, f: &mut fmt::Formatter<W>) -> fmt::Result {
        let StepRow(needs, gives, _) = *self;
        let lines = Members(needs);
        write!(f, "step{lines} gives {gives}")
    }
}

impl Row for StepRow {
    type Answer = Said;

    fn expected(&self) -> Said {
        Said(self.2)
    }
}

// The atoms of a clause: one of the first is so, or one of the second is not.
#[derive(Drop)]
struct Atoms(u32, u32);

impl fmt::Display for Atoms {
    fn fmt<W: fmt::Write>(&self, f: &mut fmt::Formatter<W>) -> fmt::Result {
        let (yes, no) = (Members(u64::from(self.0)), Members(u64::from(self.1)));
        write!(f, "yes{yes} or no{no}")
    }
}

// `clause(first, second)` and its answer.
#[derive(Clone, Copy)]
pub struct ClauseRow(pub u32, pub u32, pub Result<(), u32>);

impl ClauseRow {
    pub fn tell(&self, facts: &mut Clauses) -> Said {
        Said::from(facts.clause(self.0, self.1))
    }
}

impl fmt::Display for ClauseRow {
    fn fmt<W: fmt::Write>(&self, f: &mut fmt::Formatter<W>) -> fmt::Result {
        let ClauseRow(first, second, _) = *self;
        let atoms = Atoms(first, second);
        write!(f, "clause {atoms}")
    }
}

impl Row for ClauseRow {
    type Answer = Said;

    fn expected(&self) -> Said {
        Said(self.2)
    }
}

// `sense(line, first, second)` and its answer.
#[derive(Clone, Copy)]
pub struct SenseRow(pub u32, pub u32, pub u32, pub Result<(), u32>);

impl SenseRow {
    pub fn tell(&self, facts: &mut Clauses) -> Said {
        Said::from(facts.sense(self.0, self.1, self.2))
    }
}

impl fmt::Display for SenseRow {
    fn fmt<W: fmt::Write>(&self, f: &mut fmt::Formatter<W>) -> fmt::Result {
        let SenseRow(line, first, second, _) = *self;
        let atoms = Atoms(first, second);
        write!(f, "sense {line} {atoms}")
    }
}

impl Row for SenseRow {
    type Answer = Said;

    fn expected(&self) -> Said {
        Said(self.3)
    }
}

// A set, and the set that follows from it.
#[derive(Clone, Copy)]
pub struct FollowRow(pub u64, pub u64);

impl FollowRow {
    pub fn ask<F: Facts>(&self, facts: &F) -> Members {
        Members(facts.follow(self.0))
    }
}

impl fmt::Display for FollowRow {
    fn fmt<W: fmt::Write>(&self, f: &mut fmt::Formatter<W>) -> fmt::Result {
        let from = Members(self.0);
        write!(f, "from{from}")
    }
}

impl Row for FollowRow {
    type Answer = Members;

    fn expected(&self) -> Members {
        Members(self.1)
    }
}

// The lines that the facts name.
#[derive(Clone, Copy)]
pub struct NamesRow(pub u64);

impl NamesRow {
    pub fn ask<F: Facts>(&self, facts: &F) -> Members {
        Members(facts.names())
    }
}

impl fmt::Display for NamesRow {
    fn fmt<W: fmt::Write>(&self, f: &mut fmt::Formatter<W>) -> fmt::Result {
        write!(f, "names")
    }
}

impl Row for NamesRow {
    type Answer = Members;

    fn expected(&self) -> Members {
        Members(self.0)
    }
}
