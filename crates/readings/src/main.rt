// Full readings of fixed books, smallest to largest: how many menus each has, of how many guesses.
// So that a run can be timed from outside, a first argument says how often each book is read, and a second which book alone.
#![tactic(auto)]

use clauses::clauses::Clauses;
use facts::{Bare, Facts};
use planner::Planner;
use planner::reading::full_reading;
use sets::refusal::Refusal;
use std::env;

// Pairs of lines, each line of a pair given unless the other is in: two ways for each pair.
fn write_pairs<F: Facts>(planner: &mut Planner<F>, pairs: u32) -> Result<(), Refusal> {
    for pair in 0..pairs.min(6) {
        let (one, other) = (2 * pair, 2 * pair + 1);
        planner.write(one, b"one")?;
        planner.write(other, b"other")?;
        planner.rule(one, 0, 1 << other, one)?;
        planner.rule(other, 0, 1 << one, other)?;
    }
    Ok(())
}

// Lines 12 to 39, each given by the first line of a pair.
fn write_rest<F: Facts>(planner: &mut Planner<F>) -> Result<(), Refusal> {
    for line in 12u32..40 {
        planner.write(line, b"more")?;
        planner.rule(line, 1 << (2 * (line % 6)), 0, line)?;
    }
    Ok(())
}

// The lines of a pair mean an atom and its denial, lines 12 to 39 one of the atoms 6 to 9;
// with an atom of a pair comes one of these.
fn pair_clauses() -> Result<Clauses, Refusal> {
    let mut facts = Clauses::new();
    for atom in 0u32..6 {
        facts.sense(2 * atom, 1 << atom, 0)?;
        facts.sense(2 * atom + 1, 0, 1 << atom)?;
    }
    for line in 12u32..40 {
        facts.sense(line, 1 << (6 + line % 4), 0)?;
    }
    for n in 0u32..24 {
        facts.clause(1 << (6 + n % 4), 1 << (n % 6))?;
    }
    Ok(facts)
}

// Reads all menus of a book as often as asked, and prints how many there are.
fn read<F: Facts + Drop>(
    rt: &HostRuntime,
    name: &str,
    book: Result<Planner<F>, Refusal>,
    times: u32,
) -> anyhow::Result<()> {
    let planner = match book {
        Ok(planner) => planner,
        Err(refusal) => return Ok(println!(rt; "no {}", refusal.number())?),
    };
    let mut menus = vec![in rt.alloc(); 0u64; 4096]?;
    let mut count = 0;
    for _ in 0..times {
        match full_reading(&planner, &mut menus) {
            Ok(found) => count = found,
            Err(refusal) => println!(rt; "{name}: no {}", refusal.number())?,
        }
    }
    let guesses = planner.guesses();
    println!(rt; "{name}: {count} menus of {guesses} guesses")?;
    Ok(())
}

// What the arguments ask for.
struct Asked {
    times: u32,
    only: Option<u32>,
}

fn arguments(rt: &HostRuntime) -> anyhow::Result<Asked> {
    let mut words = env::args(rt)?.skip(1);
    let times = words.next().map(|word| word.parse::<u32>()).transpose()?;
    let only = words.next().map(|word| word.parse::<u32>()).transpose()?;
    Ok(Asked {
        times: times.unwrap_or(1),
        only,
    })
}

// The book of so many pairs, over bare facts.
fn bare_book(pairs: u32) -> Result<Planner<Bare>, Refusal> {
    let mut planner = Planner::new(pairs, Bare);
    write_pairs(&mut planner, pairs)?;
    Ok(planner)
}

// Six pairs and 28 lines more, 40 rules in all, over clauses.
fn clause_book() -> Result<Planner<Clauses>, Refusal> {
    let mut planner = Planner::new(7, pair_clauses()?);
    write_pairs(&mut planner, 6)?;
    write_rest(&mut planner)?;
    Ok(planner)
}

// A book that is read.
enum Book {
    // so many pairs, over bare facts
    Pairs(u32),
    // 40 rules, over clauses
    Rules,
}

const BOOKS: &[Book] = &[
    Book::Pairs(0),
    Book::Pairs(1),
    Book::Pairs(2),
    Book::Pairs(3),
    Book::Pairs(4),
    Book::Pairs(5),
    Book::Pairs(6),
    Book::Rules,
];

fn main(rt: HostRuntime) -> anyhow::Result<()> {
    let Asked { times, only } = arguments(&rt)?;
    for (n, book) in BOOKS.iter().enumerate() {
        if only.is_none_or(|only| only as usize == n) {
            match book {
                Book::Pairs(pairs) => read(&rt, "pairs over bare facts", bare_book(*pairs), times)?,
                Book::Rules => read(&rt, "40 rules over clauses", clause_book(), times)?,
            }
        }
    }
    Ok(())
}
