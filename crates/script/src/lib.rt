// One line of a script is read, asked of a planner, and answered by bytes.
#![tactic(auto)]

ghost use Rattle.std.specs.Prelude.{◌≤◌, length, MatchOption};
ghost use Rattle.script.specs.Lines.{Bounded};

mod print;
mod printer;
pub mod request;
pub mod session;

pub use crate::print::bad;

// Where a line ends, its end byte not counted, and where the next one would begin.
#[derive(Clone, Copy)]
pub struct Bounds {
    pub end: usize,
    pub next: usize,
}

// The bounds of the line that begins at `from`; none if the input ends there.
// A line ends before the byte 0A, which the last line may lack.
pub fn next_line(input: &[u8], from: usize) -> Option<Bounds>
    ensures { MatchOption result (length input.now ≤ from) (λ b. Bounded input.now from b.end b.next) }
{
    if from >= input.len() {
        return None;
    }
    let found = input[from..].iter().position(|byte| *byte == b'\n');
    let end = found.map_or(input.len(), |at| from + at);
    Some(Bounds {
        end,
        next: input.len().min(end + 1),
    })
}
