// Making facts of clauses, adding a clause, giving a line its sense.
ghost use Rattle.std.specs.Prelude.{◌≡◌, ℕ, ◌<◌, true, ◌≢◌, [], is_some, Some, None, Decides};
ghost use Rattle.clauses.specs.Rows.{IsClause, atom_count};
ghost use Rattle.clauses.specs.Told.{PutClause, PutSense, SameSenses, clauses_of, sense_of};

use crate::clause::Clause;
use crate::clauses::Clauses;
use crate::clauses::rows::Rows;
use arrayvec::ArrayVec;
use sets::refusal::Refusal;

impl Clauses {
    // No clause yet, and no line with a sense.
    pub fn new() -> Clauses
        ensures clauses { clauses_of result ≡ [] }
        ensures senses { (n : ℕ) → sense_of result n ≡ None }
    {
        Clauses {
            told: ArrayVec::new(),
            met: Rows::every(),
            senses: [None; 64],
        }
    }

    // Adds a clause, as the last.
    pub fn clause(&mut self, first: u32, second: u32) -> Result<(), Refusal>
        ensures clause { PutClause (clauses_of self.old) first second result (clauses_of self.new) }
        ensures senses { SameSenses (sense_of self.old) (sense_of self.new) }
    {
        let added = Clause::new(first, second)?;
        self.told.try_push(added).map_err(|_| Refusal::FactsFull)?;
        self.met.meet(added);
        Ok(())
    }

    // Gives a line its sense.
    pub fn sense(&mut self, line: u32, first: u32, second: u32) -> Result<(), Refusal>
        ensures sense { PutSense (sense_of self.old) line first second result (sense_of self.new) }
        ensures clauses { clauses_of self.new ≡ clauses_of self.old }
    {
        if line > 63 {
            return Err(Refusal::OutOfRange);
        }
        let clause = Clause::new(first, second)?;
        if self.has_sense(line) {
            return Err(Refusal::HasSense);
        }
        self.put_sense(line, clause);
        Ok(())
    }

    // Writes the sense of a line.
    fn put_sense(&mut self, line: u32, clause: Clause)
        requires line { line < 64 }
        requires clause { IsClause atom_count clause }
        ensures line { sense_of self.new line ≡ Some clause }
        ensures others { (n : ℕ) → n ≢ line → sense_of self.new n ≡ sense_of self.old n }
        ensures clauses { clauses_of self.new ≡ clauses_of self.old }
    {
        self.senses[line as usize] = Some(clause);
    }

    // The sense of a line, if it has one.
    pub fn sense_of(&self, line: u32) -> Option<Clause>
        ensures { result ≡ sense_of self.now line }
    {
        *self.senses.get(line as usize)?
    }

    // Has the line a sense?
    pub fn has_sense(&self, line: u32) -> bool
        ensures { Decides result (is_some (sense_of self.now line) ≡ true) }
    {
        self.sense_of(line).is_some()
    }
}
