// Guesses pick lines out of a set.
ghost use Rattle.sets.specs.Picks.{Picks};

use crate::walk::Lines;

// The lines of `from` that the bits of `guess` pick: its j-th line from below is in exactly if bit j is set.
pub fn pick(from: u64, guess: u64) -> u64
    ensures { Picks from guess result }
{
    let mut picked = 0;
    let mut rest = guess;
    for line in Lines::of(from) {
        picked |= (rest & 1) << line;
        rest >>= 1;
    }
    picked
}
