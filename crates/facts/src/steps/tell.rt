// Making facts of steps, and adding a step.
ghost use Rattle.facts.specs.Told.{told, PutStep};
ghost use Rattle.std.specs.Prelude.{◌≡◌, []};

use crate::step::Step;
use crate::steps::Steps;
use arrayvec::ArrayVec;
use sets::refusal::Refusal;

impl<F> Steps<F> {
    // No step yet over the facts below.
    pub fn new(below: F) -> Steps<F>
        ensures none { told result ≡ [] }
        ensures below { result.below ≡ below }
    {
        Steps {
            below,
            rows: ArrayVec::new(),
        }
    }

    // Adds a step, as the last.
    pub fn step(&mut self, needs: u64, gives: u32) -> Result<(), Refusal>
        ensures step { PutStep (told self.old) needs gives result (told self.new) }
        ensures below { self.new.below ≡ self.old.below }
    {
        if gives > 63 {
            return Err(Refusal::OutOfRange);
        }
        self.rows
            .try_push(Step { needs, gives })
            .map_err(|_| Refusal::FactsFull)
    }
}
