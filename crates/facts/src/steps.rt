// Facts told by steps, over facts of any kind.
ghost use Rattle.std.specs.Prelude.{◌≤◌, length, All};
ghost use Rattle.facts.specs.Steps.{IsStep, most_steps};

use crate::step::Step;
use arrayvec::ArrayVec;

mod asked;
mod tell;

pub const MOST_STEPS: usize = 32;

#[derive(Drop)]
pub struct Steps<F> {
    below: F,
    rows: ArrayVec<Step, MOST_STEPS>,
    ghost few: { length rows.items ≤ most_steps },
    ghost steps_fit: { All IsStep rows.items },
}
