// The sack comes in, the rules are written, and at last another dish takes its line.
use crate::Day;
use crate::kitchen::{LENTILS, LENTILS_RULE, ROLLS, SOUP, SOUP_RULE, TRIFLE, TRIFLE_RULE};
use crate::show::{No, Number, Place, Said, Text, done};
use book::rows::Wording;
use std::io;

// A rule, and how the cook says it.
struct Card {
    place: u32,
    needs: u64,
    unless: u64,
    gives: u32,
    said: &'static str,
}

const CARDS: &[Card] = &[
    Card {
        place: LENTILS_RULE,
        needs: 0,
        unless: 0,
        gives: LENTILS,
        said: "red-lentils, always",
    },
    Card {
        place: SOUP_RULE,
        needs: 1 << LENTILS,
        unless: 1 << TRIFLE,
        gives: SOUP,
        said: "with red-lentils, soup, unless trifle",
    },
    Card {
        place: TRIFLE_RULE,
        needs: 0,
        unless: 1 << SOUP,
        gives: TRIFLE,
        said: "trifle, unless soup",
    },
];

impl Day<'_> {
    pub fn sack_comes_in(&mut self) -> io::Result<()> {
        println!(self.rt; "= The sack comes in")?;
        self.write(LENTILS, "red-lentils")?;
        self.write(SOUP, "soup")?;
        self.write(TRIFLE, "trifle")?;
        self.list(0)?;
        self.write(ROLLS, "rolls")?;
        self.words(LENTILS)
    }

    pub fn rules(&mut self) -> io::Result<()> {
        println!(self.rt; "= The rules")?;
        for card in CARDS {
            let answer = self
                .planner
                .rule(card.place, card.needs, card.unless, card.gives);
            println!(self.rt; "rule {}, {}: {}", card.place, card.said, done(answer))?;
        }
        Ok(())
    }

    // Strikes the lentils once no rule names them, and gives their line away.
    pub fn sack_is_empty(&mut self) -> io::Result<()> {
        println!(self.rt; "= The sack is empty")?;
        self.strike(LENTILS)?;
        let answer = done(self.planner.unrule(SOUP_RULE));
        println!(self.rt; "unrule {SOUP_RULE}: {answer}")?;
        self.strike(LENTILS)?;
        self.write(LENTILS, "plum-trifle")?;
        self.words(LENTILS)?;
        // the number that the lentils had, and the new one
        self.seek(1)?;
        self.seek(5)
    }

    fn write(&mut self, line: u32, words: &str) -> io::Result<()> {
        let number = Said(self.planner.write(line, words.as_bytes()).map(Number));
        println!(self.rt; "write {words} on line {line}: {number}")
    }

    fn strike(&mut self, line: u32) -> io::Result<()> {
        let answer = done(self.planner.strike(line));
        println!(self.rt; "strike line {line}: {answer}")
    }

    fn seek(&self, number: u32) -> io::Result<()> {
        let place = Place(self.planner.where_is(number));
        println!(self.rt; "where is number {number}: {place}")
    }

    // Copies the words of a line into a buffer of dots, and prints the buffer.
    fn words(&self, line: u32) -> io::Result<()> {
        let mut buffer = [b'.'; 16];
        print!(self.rt; "words of line {line}: ")?;
        match self.planner.words(line, &mut buffer) {
            Ok(Wording { len, number }) => {
                println!(self.rt; "{len} bytes, number {number}")?;
                println!(self.rt; "  the buffer: {}", Text(&buffer))
            }
            Err(refusal) => println!(self.rt; "{}", No(refusal)),
        }
    }
}
