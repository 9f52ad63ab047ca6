// Clauses over atoms.
ghost use Rattle.std.specs.Prelude.{◌≡◌, ◌^◌, ◌<◌};
ghost use Rattle.clauses.specs.Rows.{atom_count};
ghost use Rattle.clauses.specs.Told.{atom_grounds};
ghost use Rattle.sets.specs.Grounds.{Answered};

use sets::refusal::Refusal;
use std::marker::Model;

// The atoms are 0 to 9.
pub const ATOMS: u32 = 10;

// The set of all atoms, the highest that there is.
pub const ALL_ATOMS: u32 = (1 << ATOMS) - 1;

// A clause: yes to some atom of `first`, or no to some atom of `second`.
#[derive(Clone, Copy, PartialEq, Eq, Debug, Default)]
pub struct Clause {
    first: u32,
    second: u32,
}

impl Model for Clause {
    ghost use Rattle.clauses.specs.Clause.{Clause as Sets};

    ghost Value = { Sets };

    ghost use Rattle.clauses.specs.Rows.{IsClause, atom_count};

    ghost view = { λ c. record { first = c.first; second = c.second } };

    ghost invariant = { λ c. IsClause atom_count (record { first = c.first; second = c.second }) };

    ghost inverse = { λ c. record { first = c.first; second = c.second } };
}

impl Clause {
    // The clause of these sets, unless one has an atom above the highest.
    pub fn new(first: u32, second: u32) -> Result<Clause, Refusal>
        ensures { Answered (atom_grounds first second) (λ c. c ≡ record { first = first; second = second }) (Unit {0}) result }
    {
        if first > ALL_ATOMS || second > ALL_ATOMS {
            return Err(Refusal::AtomsTooHigh);
        }
        Ok(Clause { first, second })
    }

    // The atoms to which it says yes.
    pub fn first(self) -> u32
        ensures value { result ≡ self.first }
        ensures fits { result < 2 ^ atom_count }
    {
        self.first
    }

    // The atoms to which it says no.
    pub fn second(self) -> u32
        ensures value { result ≡ self.second }
        ensures fits { result < 2 ^ atom_count }
    {
        self.second
    }
}
