// Scripts too long to be written out.
use crate::trial::Trial;
use std::alloc::{AllocError, Global};
use std::io;

pub fn run(trial: &mut Trial<'_>) -> io::Result<()> {
    most_steps(trial)?;
    longest(trial)?;
    too_long(trial)
}

// A 33rd step is refused, after one that gives a line above 63.
fn most_steps(trial: &mut Trial<'_>) -> io::Result<()> {
    let rest = b"> . 64\n> . 1\n+ 0 tea\n? 0\n> . 1\n";
    let script = repeated(trial.heap(), b"> . 0\n", 32, rest)?;
    let noes = b"no 1\nno 19\nnumber 1\nmenus 1 next 1 of 1\ntea\nbad 217\n";
    let answers = repeated(trial.heap(), b"ok\n", 32, noes)?;
    trial.compare("33 steps", &script, &answers)
}

// 8,192 bytes are read.
fn longest(trial: &mut Trial<'_>) -> io::Result<()> {
    let script = repeated(trial.heap(), b"- 0\n", 2048, b"")?;
    let answers = repeated(trial.heap(), b"no 5\n", 2048, b"")?;
    trial.compare("8,192 bytes", &script, &answers)?;
    let script = repeated(trial.heap(), b"- 0\n", 2047, b"? 10")?;
    let answers = repeated(trial.heap(), b"no 5\n", 2047, b"no 10\n")?;
    trial.compare("8,192 bytes without the last end", &script, &answers)?;
    let script = repeated(trial.heap(), b"- 0\n", 2047, b"- 00")?;
    let answers = repeated(trial.heap(), b"no 5\n", 2047, b"bad 8188\n")?;
    trial.compare("8,192 bytes with a bad line last", &script, &answers)
}

// One byte more is not, even if it is only the last line's end.
fn too_long(trial: &mut Trial<'_>) -> io::Result<()> {
    let script = repeated(trial.heap(), b"- 0\n", 2047, b"? 10\n")?;
    trial.compare("8,193 bytes", &script, b"bad 8192\n")?;
    let script = repeated(trial.heap(), b"- 0\n", 3000, b"")?;
    trial.compare("12,000 bytes", &script, b"bad 8192\n")
}

// A line many times, and what comes after it.
fn repeated(heap: Global, line: &[u8], times: u32, rest: &[u8]) -> Result<Vec<u8>, AllocError> {
    let mut bytes = Vec::new(heap);
    for _ in 0..times {
        bytes.extend_from_slice(line)?;
    }
    bytes.extend_from_slice(rest)?;
    Ok(bytes)
}
