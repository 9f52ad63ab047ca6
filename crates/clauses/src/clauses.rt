// Facts of the kind `Clauses`: the clauses told, and the sense of each line that has one.
ghost use Rattle.std.specs.Prelude.{◌≡◌, ℕ, ◌≤◌, length, None, slice_index_or};
ghost use Rattle.clauses.specs.Rows.{IsSense, most_clauses, atom_count};
ghost use Rattle.clauses.specs.Words.{Narrowed};

use crate::clause::Clause;
use crate::clauses::rows::Rows;
use arrayvec::ArrayVec;

mod asked;
mod rows;
mod tell;

pub const MOST_CLAUSES: usize = 24;

// `met` has the rows that meet all clauses told: a new clause narrows it, and `follow` starts from it.
// `told` is what the contracts speak of.
#[derive(Drop)]
pub struct Clauses {
    told: ArrayVec<Clause, MOST_CLAUSES>,
    met: Rows,
    senses: [Option<Clause>; 64],
    ghost few: { length told.items ≤ most_clauses },
    ghost lines: { length senses ≡ 64 },
    ghost narrowed: { Narrowed told.items met.words },
    ghost senses_fit: { (i : ℕ) → IsSense atom_count (slice_index_or senses i None) },
}
