// The answers, printed as bytes. A full buffer takes no more, and the bytes around a print stay.
ghost use Rattle.std.specs.Prelude.{◌≤◌, length, decimal};
ghost use Rattle.book.specs.View.{view};
ghost use Rattle.script.specs.Menus.{listed_text, menu_text, words_at};
ghost use Rattle.script.specs.Texts.{bad_text, counted, done_text, heading_text, no_text, written_text};
ghost use Rattle.script.specs.Writing.{Prints, Says, Wrote};

use crate::printer::Printer;
use book::book::Book;
use planner::Listing;
use sets::refusal::Refusal;
use sets::walk::Lines;

impl Printer<'_> {
    fn put(&mut self, bytes: &[u8])
        ensures { Prints self.old bytes.now self.new }
    {
        let len = bytes.len().min(self.buffer.len() - self.at);
        let end = self.at + len;
        self.buffer[self.at..end].copy_from_slice(&bytes[..len]);
        self.at = end;
    }

    // A number in base ten.
    fn number(&mut self, value: usize)
        ensures { Prints self.old (decimal value) self.new }
    {
        self.put(itoa::Buffer::new().format(value).as_bytes())
    }

    // A word, a space, a number and the line's end.
    fn count(&mut self, word: &[u8], value: usize)
        ensures { Prints self.old (counted word.now value) self.new }
    {
        self.put(word);
        self.number(value);
        self.put(b"\n")
    }

    // The answer to a line that has not the shape of a script line; `place` is that of its first byte.
    pub fn bad(&mut self, place: usize)
        ensures { Says self.old (bad_text place) self.new }
    {
        self.count(b"bad ", place)
    }

    pub fn no(&mut self, refusal: Refusal)
        ensures { Says self.old (no_text refusal) self.new }
    {
        self.count(b"no ", refusal.number() as usize)
    }

    // The answer to a call that answers nothing more than that it was done.
    pub fn done(&mut self, res: Result<(), Refusal>)
        ensures { Says self.old (done_text res) self.new }
    {
        match res {
            Ok(()) => self.put(b"ok\n"),
            Err(refusal) => self.no(refusal),
        }
    }

    // The answer to a write: the statement's number.
    pub fn written(&mut self, res: Result<u32, Refusal>)
        ensures { Says self.old (written_text res) self.new }
    {
        match res {
            Ok(value) => self.count(b"number ", value as usize),
            Err(refusal) => self.no(refusal),
        }
    }

    // The first line of a listing's answer: how many menus, the next guess and the count of guesses.
    fn heading(&mut self, menus: usize, next: u32, guesses: u32)
        ensures wrote { Prints self.old (heading_text menus next guesses) self.new }
        ensures short { length (heading_text menus next guesses) ≤ 83 }
    {
        self.put(b"menus ");
        self.number(menus);
        self.put(b" next ");
        self.number(next as usize);
        self.count(b" of ", guesses as usize)
    }

    // The words of a menu's lines, parted by spaces, lines rising.
    fn menu(&mut self, book: &Book, set: u64)
        ensures { Prints self.old (menu_text (view book.now) set) self.new }
    {
        let mut gap: &[u8] = b"";
        for line in Lines::of(set) {
            self.put(gap);
            self.words(book, line);
            gap = b" ";
        }
        self.put(b"\n")
    }

    // The words of a line; nothing for an empty line.
    fn words(&mut self, book: &Book, n: u32)
        ensures { Prints self.old (words_at (view book.now) n) self.new }
    {
        if let Some(row) = book.statement(n) {
            self.put(row.words.as_slice());
        }
    }

    // The answer to a list call: a heading, and a line for each menu of the page.
    pub fn listed(&mut self, page: &[u64], listing: Listing, guesses: u32, book: &Book)
        ensures wrote { Prints self.old (listed_text (view book.now) page.now listing.count listing.next guesses) self.new }
        ensures short { length page.now ≤ 16 → length (listed_text (view book.now) page.now listing.count listing.next guesses) ≤ 32768 }
    {
        self.heading(listing.count, listing.next, guesses);
        for set in &page[..listing.count.min(page.len())] {
            self.menu(book, *set);
        }
    }
}

// The answer to a bad line, at a buffer's start; answers where it ends.
pub fn bad(buffer: &mut [u8], place: usize) -> usize
    ensures wrote { Wrote buffer.old 0 (bad_text place) buffer.new result }
    ensures short { length (bad_text place) ≤ 31 }
{
    let mut printer = Printer::new(buffer);
    printer.bad(place);
    printer.at
}
