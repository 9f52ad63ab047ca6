// A try: the smallest set closed under the facts and the rules that a guess leaves open.
ghost use Rattle.std.specs.Prelude.{◌≡◌, ℕ, ◌≤◌, Decides, MatchOption};
ghost use Rattle.book.specs.Rows.{GivesLines, unless_lines};
ghost use Rattle.book.specs.View.{view};
ghost use Rattle.facts.specs.Closure.{Passed};
ghost use Rattle.laws.specs.Menus.{Open, Obeys, Closed};
ghost use Rattle.laws.specs.Laws.{Found};
ghost use Rattle.planner.specs.Tries.{Stopped, Turned};
ghost use Rattle.sets.specs.Sets.{Within, Smallest};

use book::book::Book;
use book::rows::Rule;
use facts::Facts;
use laws::listing::Listing;

// What tries are made of: the facts, the rules of a book, the lines in their unless-sets, and what follows from nothing, where each try starts.
#[derive(Drop)]
pub struct Tries<'a, F: Facts> {
    facts: &'a F,
    rules: &'a [Option<Rule>],
    unless: u64,
    start: u64,
    ghost gives_lines: { GivesLines rules.now },
    ghost from_nothing: { start ≡ (F.Facts.meaning facts.now).follow 0 },
}

// Does the rule fire: is it open under the guess, and are its needs in the set?
fn fires(rule: &Rule, guess: u64, set: u64) -> bool
    ensures { Decides result (Open rule.now guess × Within rule.now.needs set) }
{
    (rule.unless & guess == 0) & sets::within(rule.needs, set)
}

impl<'a, F: Facts> Tries<'a, F> {
    // The tries over these facts and the rules of this book.
    pub fn new(facts: &'a F, book: &'a Book) -> Tries<'a, F>
        ensures facts { result.facts.now ≡ facts.now }
        ensures rules { result.rules.now ≡ (view book.now).rules }
        ensures unless { result.unless ≡ unless_lines (view book.now).rules }
    {
        Tries {
            facts,
            rules: book.rules(),
            unless: book.unless_lines(),
            start: facts.follow(0),
        }
    }

    // One round over the rules: each that fires adds its line.
    fn round(&self, guess: u64, mut set: u64) -> u64
        ensures { Passed (Obeys self.now.rules.now guess) set result }
    {
        for row in self.rules {
            if let Some(rule) = row {
                if fires(rule, guess, set) {
                    set = sets::with(set, rule.gives);
                }
            }
        }
        set
    }

    // One round over the rules, and what follows by the facts.
    fn turn(&self, guess: u64, set: u64) -> u64
        ensures { Turned (F.Facts.meaning self.now.facts.now) self.now.rules.now guess set result }
    {
        self.facts.follow(self.round(guess, set))
    }

    // Turns from what follows from nothing, until one adds nothing.
    pub fn close(&self, guess: u64) -> u64
        ensures { Smallest (Closed (F.Facts.meaning self.now.facts.now) self.now.rules.now guess) result }
    {
        let mut set = self.start;
        loop {
            let next = self.turn(guess, set);
            if next == set {
                return set;
            }
            set = next;
        }
    }

    // What a guess finds, if anything.
    fn find(&self, number: u32) -> Option<u64>
        ensures { MatchOption result ((s : ℕ) → Found (F.Facts.meaning self.now.facts.now) self.now.rules.now self.now.unless number s → ⊥) (Found (F.Facts.meaning self.now.facts.now) self.now.rules.now self.now.unless number) }
    {
        let guess = sets::pick::pick(self.unless, u64::from(number));
        let set = self.close(guess);
        (set & self.unless == guess).then_some(set)
    }

    // Tries the guesses from `from` on, and writes each set found to the next place. It stops when the page is full or no guess is left.
    pub fn read(&self, from: u32, total: u32, page: &mut [u64]) -> Listing
        requires { from ≤ total }
        ensures { Stopped (Found (F.Facts.meaning self.now.facts.now) self.now.rules.now self.now.unless) from total page.old page.new result.count result.next }
    {
        let mut count = 0;
        for number in from..total {
            if count == page.len() {
                return Listing {
                    count,
                    next: number,
                };
            }
            if let Some(lines) = self.find(number) {
                page[count] = lines;
                count += 1;
            }
        }
        Listing { count, next: total }
    }
}
