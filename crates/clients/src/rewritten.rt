// A line that is struck and written again.
ghost use Rattle.clients.specs.Rewritten.{ReadsGone};

use facts::Bare;
use laws::looked::Looked;
use planner::Planner;
use sets::refusal::Refusal;

// The planner after the calls, and what the look found.
#[derive(Drop)]
pub struct Outcome {
    pub planner: Planner<Bare>,
    pub found: Looked,
}

// Writes `first` on line 0 of a new planner, saves a menu of it, strikes the line, writes `second` there, and looks at the record.
// No call but the two writes is ever refused.
pub fn rewritten(first: &[u8], second: &[u8]) -> Result<Outcome, Refusal>
    ensures { ReadsGone first.now second.now result }
{
    let mut planner = Planner::new(1, Bare);
    planner.write(0, first)?;
    // line 0 is given unasked, so {0} is a menu
    planner.rule(0, 0, 0, 0).unwrap();
    let hold = planner.hold(1).unwrap();
    let mut record = [0; 7];
    let length = planner.save(&hold, &mut record).unwrap();
    planner.release(hold).unwrap();
    planner.unrule(0).unwrap();
    planner.strike(0).unwrap();
    planner.write(0, second)?;
    let found = planner.look(&record[0..length]).unwrap();
    Ok(Outcome { planner, found })
}
