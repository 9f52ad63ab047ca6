// What one line of a script asks, read from its bytes.
ghost use Rattle.std.specs.Prelude.{◌≡◌, ◌-◌, ◌<◌, ◌≤◌, true, ◌++◌, codes, MatchOption};
ghost use Rattle.script.specs.Reading.{Lacks, Parts, ReadsRequest, ReadsLine, ReadsLines, ReadsNumber, ReadsSet, value_after};
ghost use Rattle.std.specs.Str.{all_ascii_digits};

#[derive(Clone, Copy)]
pub enum Request<'a> {
    Step {
        needs: u64,
        gives: u32,
    },
    Write {
        line: u32,
        words: &'a [u8],
    },
    Strike {
        line: u32,
    },
    Rule {
        place: u32,
        needs: u64,
        unless: u64,
        gives: u32,
    },
    Unrule {
        place: u32,
    },
    List {
        from: u32,
    },
}

// Reads a line without its end. The first character says what the line asks,
// and single spaces part the fields. Any other shape is none.
pub fn read(line: &[u8]) -> Option<Request<'_>>
    ensures { ReadsRequest line.now result }
{
    let [first, b' ', fields @ ..] = line else {
        return None;
    };
    match char::from(*first) {
        '>' => step(fields),
        '+' => write(fields),
        '-' => number(fields).map(|line| Request::Strike { line }),
        ':' => rule(fields),
        '/' => number(fields).map(|place| Request::Unrule { place }),
        '?' => number(fields).map(|from| Request::List { from }),
        _ => None,
    }
}

fn step(fields: &[u8]) -> Option<Request<'_>>
    ensures { ReadsRequest (codes "> " ++ fields.now) result }
{
    let (needs, gives) = cut(fields)?;
    Some(Request::Step {
        needs: set(needs)?,
        gives: number(gives)?,
    })
}

fn write(fields: &[u8]) -> Option<Request<'_>>
    ensures { ReadsRequest (codes "+ " ++ fields.now) result }
{
    let (line, words) = cut(fields)?;
    if words.is_empty() || words.contains(&b' ') {
        return None;
    }
    Some(Request::Write {
        line: number(line)?,
        words,
    })
}

fn rule(fields: &[u8]) -> Option<Request<'_>>
    ensures { ReadsRequest (codes ": " ++ fields.now) result }
{
    let (place, rest) = cut(fields)?;
    let (needs, rest) = cut(rest)?;
    let (unless, gives) = cut(rest)?;
    Some(Request::Rule {
        place: number(place)?,
        needs: set(needs)?,
        unless: set(unless)?,
        gives: number(gives)?,
    })
}

// What stands before the first space and what stands after it; none without a space.
fn cut(fields: &[u8]) -> Option<(&[u8], &[u8])>
    ensures { MatchOption result (Lacks 32 fields.now) (λ parts. Parts fields.now 32 parts.0.now parts.1.now) }
{
    let at = fields.iter().position(|byte| *byte == b' ')?;
    Some((&fields[..at], &fields[at + 1..]))
}

// A number of at most five digits, with no needless zero in front.
fn number(field: &[u8]) -> Option<u32>
    ensures { ReadsNumber field.now result }
{
    match field {
        [] | [b'0', _, ..] => None,
        _ => digits(field),
    }
}

// The value of digits of which the first is not zero, so that a sixth one would make it 100,000.
fn digits(field: &[u8]) -> Option<u32>
    ensures { MatchOption result (all_ascii_digits field.now ≡ true → value_after 0 field.now < 100000 → ⊥) (λ n. (all_ascii_digits field.now ≡ true) × (n ≡ value_after 0 field.now) × (n < 100000)) }
{
    let mut value = 0;
    for byte in field {
        if value >= 10_000 {
            return None;
        }
        value = 10 * value + digit(*byte)?;
    }
    Some(value)
}

fn digit(byte: u8) -> Option<u32>
    ensures { MatchOption result ((48 ≤ byte) × (byte ≤ 57) → ⊥) (λ d. (48 ≤ byte) × (byte ≤ 57) × (d ≡ byte - 48)) }
{
    char::from(byte).to_digit(10)
}

// A set of lines: `.` if it is empty, else its lines.
fn set(field: &[u8]) -> Option<u64>
    ensures { ReadsSet field.now result }
{
    match field {
        [b'.'] => Some(0),
        _ => lines(field),
    }
}

// One line or more, rising, joined by commas.
fn lines(field: &[u8]) -> Option<u64>
    ensures { ReadsLines field.now result }
{
    let mut lines = 0;
    let mut least = 0;
    for item in field.split(|byte| *byte == b',') {
        let line = line_from(item, least)?;
        lines = sets::with(lines, line);
        least = line + 1;
    }
    Some(lines)
}

// A line from `least` to 63.
fn line_from(item: &[u8], least: u32) -> Option<u32>
    ensures { ReadsLine item.now least result }
{
    let line = number(item)?;
    (least..64).contains(&line).then_some(line)
}
