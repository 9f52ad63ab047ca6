// What clauses answer: the lines whose sense every row left meets, and the lines that have a sense.
ghost use Rattle.std.specs.Prelude.{◌≡◌, ℕ};
ghost use Rattle.clauses.specs.Computed.{clausal};
ghost use Rattle.clauses.specs.Rows.{Follows, Left, SensedLines, atom_count};
ghost use Rattle.clauses.specs.Told.{clauses_of, sense_of};
ghost use Rattle.clauses.specs.Words.{TableOf};
ghost use Rattle.sets.specs.Sets.{IsLines};
ghost use Rattle.clauses.specs.Entailing.{clausal_lawful, sense_on_lines};

use crate::clauses::Clauses;
use crate::clauses::rows::Rows;
use facts::Facts;
use sets::walk::Lines;

impl Clauses {
    // The rows left: those that meet all clauses told, and the sense of every line of the set too.
    fn left(&self, set: u64) -> Rows
        ensures { TableOf (Left atom_count (clauses_of self.now) (sense_of self.now) set) result.words }
    {
        let mut rows = self.met;
        for line in Lines::of(set) {
            rows.meet_sense(self.sense_of(line));
        }
        rows
    }
}

impl Facts for Clauses {
    ghost meaning = { λ f. clausal atom_count (clauses_of f) (sense_of f) };

    ghost lawful = { λ f. clausal_lawful atom_count (clauses_of f) (sense_of f) (sense_on_lines f) };

    fn follow(&self, set: u64) -> u64
        ensures computed { result ≡ (clausal atom_count (clauses_of self.now) (sense_of self.now)).follow set }
        ensures follows { Follows atom_count (clauses_of self.now) (sense_of self.now) set result }
        ensures every { (s : ℕ) → IsLines s → Follows atom_count (clauses_of self.now) (sense_of self.now) s ((clausal atom_count (clauses_of self.now) (sense_of self.now)).follow s) }
    {
        let left = self.left(set);
        set | sets::lines_where(|line| left.all_meet_sense(self.sense_of(line)))
    }

    fn names(&self) -> u64
        ensures computed { result ≡ (clausal atom_count (clauses_of self.now) (sense_of self.now)).names }
        ensures sensed { SensedLines (sense_of self.now) result }
    {
        sets::lines_where(|line| self.has_sense(line))
    }
}
