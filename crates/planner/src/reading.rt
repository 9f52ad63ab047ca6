// A full reading: every menu, by lists on a small page.
ghost use Rattle.std.specs.Prelude.{◌+◌, ◌≤◌, length};
ghost use Rattle.planner.specs.Complete.{Added, ReadAll, ReadByLists};
ghost use Rattle.planner.specs.Tries.{Appended};
ghost use Rattle.planner.specs.View.{view, facts_of};

use crate::planner::Planner;
use facts::Facts;
use laws::listing::Listing;
use sets::refusal::Refusal;

// The places of the page that a full reading lists on.
const PLACES: usize = 3;

// Adds the sets behind the places filled, as far as there is room, and answers how many are filled then.
fn append(menus: &mut [u64], count: usize, found: &[u64]) -> usize
    ensures appended { count + length found.now ≤ length menus.old → Appended menus.old count found.now (length found.now) menus.new result }
    ensures added { count + length found.now ≤ length menus.old → Added menus.old count found.now menus.new result }
{
    let start = count.min(menus.len());
    let len = found.len().min(menus.len() - start);
    menus[start..start + len].copy_from_slice(&found[..len]);
    start + len
}

// Reads every menu into the buffer, in order, and answers how many there are.
pub fn full_reading<F: Facts>(planner: &Planner<F>, menus: &mut [u64]) -> Result<usize, Refusal>
    ensures all { ReadAll (F.Facts.meaning (facts_of planner.now)) (view planner.now) menus.old menus.new result }
    ensures lists { ReadByLists (F.Facts.meaning (facts_of planner.now)) (view planner.now) menus.new result }
{
    // refused where the facts name an empty line, before anything is written
    planner.stands(0)?;
    let total = planner.guesses();
    if menus.len() < total as usize {
        return Err(Refusal::BufferTooShort);
    }
    let mut page = [0; PLACES];
    let mut count = 0;
    let mut from = 0;
    while from < total {
        let Listing { count: found, next } = planner.list(from, &mut page)?;
        count = append(menus, count, &page[..found]);
        from = next;
    }
    Ok(count)
}
