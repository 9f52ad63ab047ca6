// How a case is run and counted.
ghost use Rattle.std.specs.Prelude.{IfOk};
ghost use Rattle.stream.specs.Runs.{Answers};

use crate::Case;
use shown::Tally;
use std::alloc::{AllocError, Global};
use std::{fmt, io};

// Runs the cases, prints each, and counts them.
#[derive(Drop)]
pub struct Trial<'a> {
    rt: &'a HostRuntime,
    tally: Tally,
}

impl<'a> Trial<'a> {
    pub fn new(rt: &'a HostRuntime) -> Trial<'a> {
        Trial {
            rt,
            tally: Tally::new(),
        }
    }

    // Where long scripts are put together.
    pub fn heap(&self) -> Global {
        self.rt.alloc()
    }

    // Runs the scripts of a table.
    pub fn run_all(&mut self, cases: &[Case]) -> io::Result<()> {
        for Case(name, script, expected) in cases {
            self.compare(name, script, expected)?;
        }
        Ok(())
    }

    // Runs a script, and says whether its answers are the expected ones.
    pub fn compare(&mut self, name: &str, script: &[u8], expected: &[u8]) -> io::Result<()> {
        let got = answers(self.heap(), script)?;
        let as_expected = got.as_slice() == expected;
        self.tally.count(as_expected);
        if as_expected {
            println!(self.rt; "{name}: as expected")
        } else {
            println!(self.rt; "{name}: expected {} got {}", Shown(expected), Shown(&got))
        }
    }

    // How many cases there were, and how many failed.
    pub fn end(&self) -> io::Result<()> {
        println!(self.rt; "{}", self.tally)
    }
}

// The answers to a script.
fn answers(heap: Global, script: &[u8]) -> Result<Vec<u8>, AllocError>
    ensures { IfOk result (λ out. Answers script.now out.items) }
{
    let mut out = Vec::new(heap);
    stream::run(heap, script, &mut out)?;
    Ok(out)
}

// Bytes, shown by printable characters alone.
#[derive(Drop)]
struct Shown<'a>(&'a [u8]);

impl fmt::Display for Shown<'_> {
    fn fmt<W: fmt::Write>(&self, f: &mut fmt::Formatter<W>) -> fmt::Result {
        for byte in self.0 {
            match *byte {
                b'\n' => write!(f, "\\n")?,
                b' '..=b'~' => write!(f, "{}", char::from(*byte))?,
                other => write!(f, "\\x{other:02x}")?,
            }
        }
        Ok(())
    }
}
