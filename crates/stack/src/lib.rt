// Facts in layers: a given set over steps over a given set over facts of any kind.
#![tactic(auto)]

ghost use Rattle.facts.specs.Given.{given};
ghost use Rattle.facts.specs.Meaning.{Meaning};
ghost use Rattle.facts.specs.Steps.{Follows, lines_of};
ghost use Rattle.sets.specs.Sets.{Smallest};
ghost use Rattle.stack.specs.Stack.{Stands, bottom_of, inner_of, outer_of, steps_of};
ghost use Rattle.std.specs.Prelude.{◌≡◌, bit_or};

use facts::Facts;
use facts::given::Given;
use facts::steps::Steps;

pub mod house;

// The set that follows from a set by all the layers.
pub fn ask<F: Facts>(facts: &Given<Steps<Given<F>>>, set: u64) -> u64
    ensures layered { Follows (given (inner_of facts.now) (F.Facts.meaning (bottom_of facts.now))) (steps_of facts.now) (bit_or set (outer_of facts.now)) result }
    ensures smallest { Smallest (Stands (F.Facts.meaning (bottom_of facts.now)) (inner_of facts.now) (steps_of facts.now) (outer_of facts.now) set) result }
{
    facts.follow(set)
}

// The lines that all the layers name.
pub fn names<F: Facts>(facts: &Given<Steps<Given<F>>>) -> u64
    ensures { result ≡ bit_or (bit_or (bit_or (F.Facts.meaning (bottom_of facts.now)).names (inner_of facts.now)) (lines_of (steps_of facts.now))) (outer_of facts.now) }
{
    facts.names()
}
