// What was answered, in print and against the table.
use crate::rows::Row;
use sets::refusal::Refusal;
use shown::{Lines, Tally};
use std::{fmt, io};

// A set, printed as its members, each after a space.
#[derive(Clone, Copy, PartialEq, Eq)]
pub struct Members(pub u64);

impl fmt::Display for Members {
    fn fmt<W: fmt::Write>(&self, f: &mut fmt::Formatter<W>) -> fmt::Result {
        match self.0 {
            0 => write!(f, " none"),
            set => write!(f, "{}", Lines(set)),
        }
    }
}

// The answer to what is told: done, or refused by a number.
#[derive(Clone, Copy, PartialEq, Eq)]
pub struct Said(pub Result<(), u32>);

impl From<Result<(), Refusal>> for Said {
    fn from(answer: Result<(), Refusal>) -> Said {
        Said(answer.map_err(|refusal| refusal.number()))
    }
}

impl fmt::Display for Said {
    fn fmt<W: fmt::Write>(&self, f: &mut fmt::Formatter<W>) -> fmt::Result {
        match self.0 {
            Ok(()) => write!(f, " ok"),
            Err(number) => write!(f, " no {number}"),
        }
    }
}

// Prints the cases, and counts those that were answered as the table says and those that were not.
#[derive(Drop)]
pub struct Report<'a> {
    rt: &'a HostRuntime,
    tally: Tally,
}

impl<'a> Report<'a> {
    pub fn new(rt: &'a HostRuntime) -> Report<'a> {
        Report {
            rt,
            tally: Tally::new(),
        }
    }

    // Begins the cases over one kind of facts.
    pub fn title(&self, name: &str) -> io::Result<()> {
        println!(self.rt; "= {name}")
    }

    // Ends the line of a case with its answer.
    fn count<A: Copy + PartialEq + fmt::Display>(&mut self, got: A, expected: A) -> io::Result<()> {
        let as_expected = got == expected;
        self.tally.count(as_expected);
        if as_expected {
            return println!(self.rt; ":{got}");
        }
        println!(self.rt; ":{got}, but expected{expected}")
    }

    // Asks every row of a table by the closure.
    pub fn run<R: Row, F: FnMut(&R) -> R::Answer>(
        &mut self,
        rows: &[R],
        mut ask: F,
    ) -> io::Result<()>
        requires { F.IsAlwaysCallable ask }
    {
        for row in rows {
            print!(self.rt; "{row}")?;
            let got = ask(row);
            self.count(got, row.expected())?;
        }
        Ok(())
    }

    // How many cases there were, and how many failed.
    pub fn end(&self) -> io::Result<()> {
        println!(self.rt; "{}", self.tally)
    }
}
