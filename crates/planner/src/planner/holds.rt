// Holds on menus, and saved menus.
ghost use Rattle.laws.specs.World.{held, released, saved};
ghost use Rattle.planner.specs.View.{Does, Tells, token, hold_answer, release_answer};

use crate::planner::{HandedBack, Hold, Planner};
use facts::Facts;
use record::write::write;
use sets::refusal::Refusal;

impl<F: Facts> Planner<F> {
    // Takes a hold on a menu. Until it is given back, none of the menu's lines can be struck.
    pub fn hold(&mut self, set: u64) -> Result<Hold, Refusal>
        ensures { Does F.Facts.meaning self.old (held set (hold_answer result)) self.new }
    {
        if self.book.holds_spent() {
            return Err(Refusal::NumbersSpent);
        }
        if !self.stands(set)? {
            return Err(Refusal::NoMenu);
        }
        let number = self.book.hold(set)?;
        Ok(Hold {
            planner: self.number,
            number,
        })
    }

    // Gives a hold back. A refusal hands it back.
    pub fn release(&mut self, hold: Hold) -> Result<(), HandedBack>
        ensures { Does F.Facts.meaning self.old (released (token hold) (release_answer result)) self.new }
    {
        let given_back = if hold.planner == self.number {
            self.book.release(hold.number)
        } else {
            Err(Refusal::NotOut)
        };
        if let Err(refusal) = given_back {
            return Err(HandedBack { refusal, hold });
        }
        let Hold {
            planner: _,
            number: _,
        } = hold;
        Ok(())
    }

    // Writes the record of a hold's menu, its lines with their numbers, to the buffer's start, and answers how many bytes it is.
    pub fn save(&self, hold: &Hold, buffer: &mut [u8]) -> Result<usize, Refusal>
        ensures { Tells F.Facts.meaning self.now (saved (token hold.now) buffer.old buffer.new result) }
    {
        if hold.planner != self.number {
            return Err(Refusal::NotOut);
        }
        let lines = self.book.held(hold.number).ok_or(Refusal::NotOut)?;
        let entries = self.book.entries(lines);
        write(entries.as_slice(), buffer).ok_or(Refusal::BufferTooShort)
    }
}
