// A full reading of a planner.
ghost use Rattle.clients.specs.Reading.{ReadByCalls};
ghost use Rattle.planner.specs.View.{view, facts_of};

use facts::Facts;
use planner::Planner;
use planner::reading::full_reading;
use sets::refusal::Refusal;

// Reads every menu of a planner into the buffer, in order, and answers how many there are.
pub fn all_menus<F: Facts>(planner: &Planner<F>, menus: &mut [u64]) -> Result<usize, Refusal>
    ensures { ReadByCalls (F.Facts.meaning (facts_of planner.now)) (view planner.now) menus.old menus.new result }
{
    full_reading(planner, menus)
}
