// The grounds on which a call is refused.
ghost use Rattle.sets.specs.Grounds.{number_of};
ghost use Rattle.std.specs.Prelude.{◌≡◌};

#[derive(Clone, Copy, PartialEq, Eq, Debug)]
pub enum Refusal {
    // a line above 63 or a place above 39
    OutOfRange = 1,
    // the line or the place is filled already
    Filled = 2,
    // words that are not 1 to 24 bytes from 33 to 126
    BadWords = 3,
    // every number has been given out
    NumbersSpent = 4,
    // the line or the place is empty, or a rule would name an empty line
    Empty = 5,
    // a hold that is out has the line
    Held = 6,
    // a rule or the facts name the line
    Named = 7,
    // the lines in unless-sets would be more than 12
    TooManyUnless = 8,
    // the facts name an empty line
    FactsNameEmpty = 9,
    // a reading that starts above the number of guesses
    FromTooHigh = 10,
    // the set is no menu
    NoMenu = 11,
    // as many holds are out as may be
    HoldsFull = 12,
    // not a hold that is out here
    NotOut = 13,
    // the buffer is too short for the answer
    BufferTooShort = 14,
    // a set of atoms above the last atom
    AtomsTooHigh = 18,
    // no room for a further fact
    FactsFull = 19,
    // the line has a sense already
    HasSense = 20,
}

impl Refusal {
    // The number by which the refusal is known outside.
    pub fn number(self) -> u32
        ensures { result ≡ number_of self }
    {
        self as u32
    }
}
