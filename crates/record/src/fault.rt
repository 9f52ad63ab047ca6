// What is wrong with bytes that are not a record, and where.
ghost use Rattle.record.specs.Faults.{number_of, place_of};
ghost use Rattle.std.specs.Prelude.{◌≡◌};

#[derive(Clone, Copy, PartialEq, Eq, Debug)]
pub enum Fault {
    // under 4 bytes, or not as many as the first two say
    Length,
    // a version that is not known
    Version,
    // a count that does not fit the length
    Count,
    // where the first faulty entry begins: its line is above 63 or does not rise,
    // or its number is 0 or not given out yet
    Entry(usize),
}

impl Fault {
    // The number by which the fault is known outside.
    pub fn number(self) -> u32
        ensures { result ≡ number_of self }
    {
        match self {
            Fault::Length => 15,
            Fault::Version => 16,
            Fault::Count | Fault::Entry(_) => 17,
        }
    }

    // The place of the faulty byte, from 0.
    pub fn place(self) -> usize
        ensures { result ≡ place_of self }
    {
        match self {
            Fault::Length => 0,
            Fault::Version => 2,
            Fault::Count => 3,
            Fault::Entry(place) => place,
        }
    }
}
