// How answers are printed.
use crate::kitchen::Kitchen;
use book::rows::Wording;
use book::text::MOST_BYTES;
use sets::refusal::Refusal;
use sets::walk;
use std::fmt;

// A refusal: its number, and what it says.
#[derive(Clone, Copy)]
pub struct No(pub Refusal);

impl fmt::Display for No {
    fn fmt<W: fmt::Write>(&self, f: &mut fmt::Formatter<W>) -> fmt::Result {
        let number = self.0.number();
        let why = why(self.0);
        write!(f, "refused by {number}, {why}")
    }
}

fn why(refusal: Refusal) -> &'static str {
    match refusal {
        Refusal::OutOfRange => "there is no such line or place",
        Refusal::Filled => "it is filled already",
        Refusal::BadWords => "no good words",
        Refusal::NumbersSpent => "no number is left",
        Refusal::Empty => "it is empty",
        Refusal::Held => "a menu that is held has the line",
        Refusal::Named => "a rule or the facts name the line",
        Refusal::TooManyUnless => "too many lines after unless",
        Refusal::FactsNameEmpty => "the facts name an empty line",
        Refusal::FromTooHigh => "there is no such guess",
        Refusal::NoMenu => "this is no menu",
        Refusal::HoldsFull => "too many menus are held",
        Refusal::NotOut => "this is not held",
        Refusal::BufferTooShort => "the buffer is too short",
        Refusal::AtomsTooHigh => "there is no such atom",
        Refusal::FactsFull => "no room for a fact",
        Refusal::HasSense => "the line has a sense already",
    }
}

// What a call answered, or why it was refused.
#[derive(Clone, Copy)]
pub struct Said<T>(pub Result<T, Refusal>);

impl<T: fmt::Display> fmt::Display for Said<T> {
    fn fmt<W: fmt::Write>(&self, f: &mut fmt::Formatter<W>) -> fmt::Result {
        match &self.0 {
            Ok(answer) => write!(f, "{answer}"),
            Err(refusal) => write!(f, "{}", No(*refusal)),
        }
    }
}

// Whether a call was done.
pub fn done(answer: Result<(), Refusal>) -> Said<&'static str> {
    Said(answer.map(|()| "done"))
}

// Yes or no.
pub fn yes(answer: Result<bool, Refusal>) -> Said<&'static str> {
    Said(answer.map(|yes| if yes { "yes" } else { "no" }))
}

// The number that was given.
#[derive(Clone, Copy)]
pub struct Number(pub u32);

impl fmt::Display for Number {
    fn fmt<W: fmt::Write>(&self, f: &mut fmt::Formatter<W>) -> fmt::Result {
        write!(f, "number {}", self.0)
    }
}

// How many bytes were written.
#[derive(Clone, Copy)]
pub struct Length(pub usize);

impl fmt::Display for Length {
    fn fmt<W: fmt::Write>(&self, f: &mut fmt::Formatter<W>) -> fmt::Result {
        write!(f, "{} bytes", self.0)
    }
}

// A line, or none.
#[derive(Clone, Copy)]
pub struct Place(pub Option<u32>);

impl fmt::Display for Place {
    fn fmt<W: fmt::Write>(&self, f: &mut fmt::Formatter<W>) -> fmt::Result {
        match self.0 {
            Some(line) => write!(f, "line {line}"),
            None => write!(f, "none"),
        }
    }
}

// The dishes of a set, each after a space by the words on its line.
#[derive(Drop)]
pub struct Dishes<'a> {
    pub planner: &'a Kitchen,
    pub set: u64,
}

impl fmt::Display for Dishes<'_> {
    fn fmt<W: fmt::Write>(&self, f: &mut fmt::Formatter<W>) -> fmt::Result {
        for line in walk::Lines::of(self.set) {
            let mut buffer = [0; MOST_BYTES];
            match self.planner.words(line, &mut buffer) {
                Ok(Wording { len, .. }) => write!(f, " {}", Text(&buffer[..len]))?,
                Err(refusal) => write!(f, " {}", No(refusal))?,
            }
        }
        Ok(())
    }
}

// Bytes as text.
#[derive(Drop)]
pub struct Text<'a>(pub &'a [u8]);

impl fmt::Display for Text<'_> {
    fn fmt<W: fmt::Write>(&self, f: &mut fmt::Formatter<W>) -> fmt::Result {
        for byte in self.0 {
            write!(f, "{}", char::from(*byte))?;
        }
        Ok(())
    }
}
