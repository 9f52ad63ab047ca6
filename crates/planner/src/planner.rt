// The planner, and its calls.
ghost use Rattle.std.specs.Prelude.{◌≡◌, Decides};
ghost use Rattle.laws.specs.Law.{Law};
ghost use Rattle.laws.specs.Laws.{MenuLaws};
ghost use Rattle.planner.specs.View.{Does, Tells, view, facts_of, book_of};
ghost use Rattle.laws.specs.World.{NameEmpty, fresh, guesses, guessed_of, wrote, struck, ruled, unruled, said, sought, stood, listed};
ghost use Rattle.sets.specs.Sets.{IsLines};

use crate::tries::Tries;
use book::book::Book;
use book::rows::{Rule, Wording};
use facts::Facts;
use laws::listing::Listing;
use sets::refusal::Refusal;

mod holds;
mod looks;

#[derive(Drop)]
pub struct Planner<F> {
    number: u32,
    facts: F,
    book: Book,
}

// A hold on a menu: the number of the planner that answered it, and its hold number. It is used up by giving it back, and in no other way.
pub struct Hold {
    planner: u32,
    number: u32,
}

// A release that was refused: the ground, and the hold handed back.
pub struct HandedBack {
    pub refusal: Refusal,
    pub hold: Hold,
}

impl<F: Facts> Planner<F> {
    // A new planner over these facts, which it owns from now on. Of every list of calls on it the law holds.
    pub fn new(number: u32, facts: F) -> Planner<F>
        ensures made { view result ≡ fresh number }
        ensures facts { facts_of result ≡ facts }
        ensures menus { MenuLaws (F.Facts.meaning facts) }
        ensures law { Law (F.Facts.meaning facts) number }
    {
        Planner {
            number,
            facts,
            book: Book::new(),
        }
    }

    // Fills an empty line with words, and answers the statement's number.
    pub fn write(&mut self, line: u32, words: &[u8]) -> Result<u32, Refusal>
        ensures { Does F.Facts.meaning self.old (wrote line words.now result) self.new }
    {
        self.book.write(line, words)
    }

    // Empties a line.
    pub fn strike(&mut self, line: u32) -> Result<(), Refusal>
        ensures { Does F.Facts.meaning self.old (struck line result) self.new }
    {
        self.book.strike(line, &self.facts)
    }

    // Fills an empty place with a rule.
    pub fn rule(&mut self, place: u32, needs: u64, unless: u64, gives: u32) -> Result<(), Refusal>
        ensures { Does F.Facts.meaning self.old (ruled place (record { needs = needs; unless = unless; gives = gives }) result) self.new }
    {
        self.book.rule(
            place,
            Rule {
                needs,
                unless,
                gives,
            },
        )
    }

    // Empties a place.
    pub fn unrule(&mut self, place: u32) -> Result<(), Refusal>
        ensures { Does F.Facts.meaning self.old (unruled place result) self.new }
    {
        self.book.unrule(place)
    }

    // How many guesses there are, one for each part of the lines in unless-sets.
    pub fn guesses(&self) -> u32
        ensures count { result ≡ guesses (view self.now) }
        ensures lines { IsLines (guessed_of (view self.now)) }
    {
        1 << self.book.unless_lines().count_ones()
    }

    // Copies the words of a line to the buffer's start, and answers their length and the number.
    pub fn words(&self, line: u32, buffer: &mut [u8]) -> Result<Wording, Refusal>
        ensures { Tells F.Facts.meaning self.now (said line buffer.old buffer.new result) }
    {
        self.book.words(line, buffer)
    }

    // The line that has this number now, or none.
    pub fn where_is(&self, number: u32) -> Option<u32>
        ensures { Tells F.Facts.meaning self.now (sought number result) }
    {
        self.book.where_is(number)
    }

    // Do the facts name an empty line?
    fn facts_name_empty(&self) -> bool
        ensures { Decides result (NameEmpty (F.Facts.meaning (facts_of self.now)) (view self.now)) }
    {
        self.book.any_vacant(self.facts.names())
    }

    // Is this set a menu?
    pub fn stands(&self, set: u64) -> Result<bool, Refusal>
        ensures { Tells F.Facts.meaning self.now (stood set result) }
    {
        if self.facts_name_empty() {
            return Err(Refusal::FactsNameEmpty);
        }
        let least = Tries::new(&self.facts, &self.book).close(set);
        Ok(least == set)
    }

    // Writes what the guesses find, from a guess on, to the page: it stops when the page is full or no guess is left.
    pub fn list(&self, from: u32, page: &mut [u64]) -> Result<Listing, Refusal>
        ensures { Tells F.Facts.meaning self.now (listed from page.old page.new result) }
    {
        if self.facts_name_empty() {
            return Err(Refusal::FactsNameEmpty);
        }
        let total = self.guesses();
        if from > total {
            return Err(Refusal::FromTooHigh);
        }
        Ok(Tries::new(&self.facts, &self.book).read(from, total, page))
    }

    // The book, to read.
    pub fn book(&self) -> &Book
        ensures { result.now ≡ book_of self.now }
    {
        &self.book
    }
}
