// A menu is held: it is saved, none of its lines can be struck, and the hold is given back.
ghost use Rattle.book.specs.Holds.{without_hold};
ghost use Rattle.laws.specs.World.{OutHere};
ghost use Rattle.planner.specs.View.{view, token};
ghost use Rattle.std.specs.Prelude.{◌≡◌};

use crate::Day;
use crate::kitchen::{LENTILS, LENTILS_RULE, NO_ROLLS, SOUP_MENU};
use crate::show::{Length, No, Said, done, yes};
use facts::Facts;
use planner::{Hold, Planner};
use sets::refusal::Refusal;
use shown::Bytes;
use std::io;

// A byte too few for a menu of three lines.
const SHORT: usize = 12;

// More than enough.
const ROOM: usize = 16;

// What a buffer holds before it is written to.
const FILLER: u8 = 0xEE;

// What was answered while a menu was held. Nothing is printed before the hold is given back.
#[derive(Drop)]
pub struct Kept {
    short: [u8; SHORT],
    short_saved: Result<usize, Refusal>,
    buffer: [u8; ROOM],
    saved: Result<usize, Refusal>,
    first_strike: Result<(), Refusal>,
    unruled: Result<(), Refusal>,
    stands: Result<bool, Refusal>,
    second_strike: Result<(), Refusal>,
}

impl Kept {
    // The record, if the menu was saved.
    pub fn record(&self) -> Option<&[u8]> {
        self.buffer.get(..self.saved.ok()?)
    }
}

// Holds the menu, saves it, and tries to strike one of its lines, before a rule is gone and after.
// From the hold on there is one way out, past `give_back`.
fn keep<F: Facts>(
    planner: &mut Planner<F>,
    menu: u64,
    line: u32,
    place: u32,
) -> Result<Kept, Refusal> {
    let hold = planner.hold(menu)?;
    let mut short = [FILLER; SHORT];
    let short_saved = planner.save(&hold, &mut short);
    let mut buffer = [FILLER; ROOM];
    let saved = planner.save(&hold, &mut buffer);
    let first_strike = planner.strike(line);
    let unruled = planner.unrule(place);
    let stands = planner.stands(menu);
    let second_strike = planner.strike(line);
    give_back(planner, hold);
    Ok(Kept {
        short,
        short_saved,
        buffer,
        saved,
        first_strike,
        unruled,
        stands,
        second_strike,
    })
}

// Gives a hold back that is out, so it is not refused.
fn give_back<F: Facts>(planner: &mut Planner<F>, hold: Hold)
    requires { OutHere (view planner.old) (token hold) }
    ensures { (view planner.new).book ≡ without_hold (view planner.old).book (token hold).number }
{
    planner.release(hold).unwrap()
}

impl Day<'_> {
    // Tries to hold what is no menu, then holds the soup menu, and hands on what the calls answered meanwhile.
    pub fn hold(&mut self) -> io::Result<Option<Kept>> {
        println!(self.rt; "= A menu is held")?;
        self.try_hold(NO_ROLLS)?;
        self.try_hold(SOUP_MENU)
    }

    fn try_hold(&mut self, set: u64) -> io::Result<Option<Kept>> {
        print!(self.rt; "hold{}: ", self.dishes(set))?;
        match keep(&mut self.planner, set, LENTILS, LENTILS_RULE) {
            Ok(kept) => {
                println!(self.rt; "done")?;
                self.tell(set, &kept)?;
                Ok(Some(kept))
            }
            Err(refusal) => {
                println!(self.rt; "{}", No(refusal))?;
                Ok(None)
            }
        }
    }

    // The answers, in the order of the calls.
    fn tell(&self, menu: u64, kept: &Kept) -> io::Result<()> {
        println!(self.rt;
            "save into {SHORT} bytes: {}",
            Said(kept.short_saved.map(Length))
        )?;
        println!(self.rt; "  the buffer:{}", Bytes(&kept.short))?;
        println!(self.rt; "save into {ROOM} bytes: {}", Said(kept.saved.map(Length)))?;
        println!(self.rt; "  the buffer:{}", Bytes(&kept.buffer))?;
        println!(self.rt; "strike line {LENTILS}: {}", done(kept.first_strike))?;
        println!(self.rt; "unrule {LENTILS_RULE}: {}", done(kept.unruled))?;
        println!(self.rt; "stands{}: {}", self.dishes(menu), yes(kept.stands))?;
        println!(self.rt; "strike line {LENTILS}: {}", done(kept.second_strike))?;
        println!(self.rt; "release: done")
    }
}
