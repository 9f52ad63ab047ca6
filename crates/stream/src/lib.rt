// A whole script is answered, line by line.
#![tactic(auto)]

ghost use Rattle.std.specs.Prelude.{◌≡◌, ◌≤◌, length, OnOk};
ghost use Rattle.script.specs.Answering.{LineAnswer};
ghost use Rattle.script.specs.Texts.{bad_text};
ghost use Rattle.stream.specs.Runs.{Answered, Answers, Appended};

use script::session::{ROOM, Session};
use script::{Bounds, bad, next_line};
use std::alloc::{AllocError, Global};

// The longest script that is read, in bytes.
pub const LONGEST: usize = 8_192;

// The most bytes that the answer to a bad line takes.
const BAD_ROOM: usize = 31;

// The number of the planner that a script asks.
const PLANNER: u32 = 1;

// Appends the answers to a script. Of a script that is too long, no line is read.
pub fn run(heap: Global, input: &[u8], out: &mut Vec<u8>) -> Result<(), AllocError>
    ensures { OnOk result (Appended (Answers input.now) out.old.items out.new.items) }
{
    if input.len() > LONGEST {
        return refuse(out);
    }
    answer_lines(heap, input, out)
}

// Appends the answer to a script that is too long.
fn refuse(out: &mut Vec<u8>) -> Result<(), AllocError>
    ensures { OnOk result (Appended (λ text. text ≡ bad_text 8192) out.old.items out.new.items) }
{
    let mut buffer = [0; BAD_ROOM];
    let end = bad(&mut buffer, LONGEST);
    out.extend_from_slice(&buffer[..end])
}

// Appends the answers to the lines of a script, one after the other.
fn answer_lines(heap: Global, input: &[u8], out: &mut Vec<u8>) -> Result<(), AllocError>
    ensures { OnOk result (Appended (Answered input.now) out.old.items out.new.items) }
{
    let mut speaker = Speaker {
        session: Session::new(PLANNER),
        buffer: Buffer {
            bytes: vec![in heap; 0u8; ROOM]?,
        },
    };
    let mut from = 0;
    while let Some(Bounds { end, next }) = next_line(input, from) {
        speaker.answer(&input[from..end], from, out)?;
        from = next;
    }
    Ok(())
}

// A buffer with room for each answer of a session.
#[derive(Drop)]
struct Buffer {
    bytes: Vec<u8>,
    ghost room: { 32768 ≤ length bytes.items },
}

// A session, and a buffer for its answers.
#[derive(Drop)]
struct Speaker {
    session: Session,
    buffer: Buffer,
}

impl Speaker {
    // Appends the answer to one line, which begins at `place`.
    fn answer(&mut self, line: &[u8], place: usize, out: &mut Vec<u8>) -> Result<(), AllocError>
        ensures { OnOk result (Appended (LineAnswer self.old.session line.now place self.new.session) out.old.items out.new.items) }
    {
        let end = self
            .session
            .answer(line, place, &mut self.buffer.bytes)
            .unwrap();
        out.extend_from_slice(&self.buffer.bytes[..end])
    }
}
