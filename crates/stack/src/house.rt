// The layers of a house: the facts at the bottom are clauses, and the answers are told in rows.
ghost use Rattle.std.specs.Prelude.{ℕ};
ghost use Rattle.clauses.specs.Rows.{Exactly};
ghost use Rattle.clauses.specs.Told.{clauses_of, sense_of};
ghost use Rattle.sets.specs.Sets.{Has, Smallest};
ghost use Rattle.stack.specs.House.{Agrees, Named};
ghost use Rattle.stack.specs.Stack.{bottom_of, inner_of, outer_of, steps_of};

use clauses::clauses::Clauses;
use facts::Facts;
use facts::given::Given;
use facts::steps::Steps;

// The set that follows from a set in the house.
pub fn ask(facts: &Given<Steps<Given<Clauses>>>, set: u64) -> u64
    ensures { Smallest (Agrees (clauses_of (bottom_of facts.now)) (sense_of (bottom_of facts.now)) (inner_of facts.now) (steps_of facts.now) (outer_of facts.now) set) result }
{
    crate::ask(facts, set)
}

// The lines that the house names.
pub fn names(facts: &Given<Steps<Given<Clauses>>>) -> u64
    ensures { (n : ℕ) → Exactly (Has result n) (Named (sense_of (bottom_of facts.now)) (inner_of facts.now) (steps_of facts.now) (outer_of facts.now) n) }
{
    crate::names(facts)
}
