// A script's run: steps first, and then calls of the planner made over them.
ghost use Rattle.script.specs.Answering.{AnswersLine, LineAnswer, Opens, Pages, Plans, Said, SessionAsks};

use crate::printer::Printer;
use crate::request::{Request, read};
use facts::Bare;
use facts::steps::Steps;
use planner::Planner;
use sets::refusal::Refusal;
use std::mem;

// The least buffer that has room for every answer.
pub const ROOM: usize = 32_768;

// The menus that one list line asks for.
const PAGE: usize = 16;

// Steps are taken until the first line of the right shape that is no step.
#[derive(Drop)]
enum State {
    Collecting(Steps<Bare>),
    Planning(Planner<Steps<Bare>>),
}

#[derive(Drop)]
pub struct Session {
    number: u32,
    state: State,
}

impl Session {
    // A session whose planner will have this number.
    pub fn new(number: u32) -> Session
        ensures { Opens number result }
    {
        Session {
            number,
            state: State::Collecting(Steps::new(Bare)),
        }
    }

    // Answers one line, which begins at `place` of the script, at the buffer's start.
    pub fn answer(&mut self, line: &[u8], place: usize, buffer: &mut [u8]) -> Result<usize, Refusal>
        ensures { AnswersLine self.old line.now place self.new buffer.old buffer.new result }
    {
        if buffer.len() < ROOM {
            return Err(Refusal::BufferTooShort);
        }
        let mut printer = Printer::new(buffer);
        self.print(line, place, &mut printer);
        Ok(printer.at)
    }

    fn print(&mut self, line: &[u8], place: usize, printer: &mut Printer<'_>)
        ensures { Said (LineAnswer self.old line.now place self.new) printer.old printer.new }
    {
        match read(line) {
            Some(request) => self.ask(request, place, printer),
            None => printer.bad(place),
        }
    }

    fn ask(&mut self, request: Request<'_>, place: usize, printer: &mut Printer<'_>)
        ensures { Said (SessionAsks self.old place request.entry self.new) printer.old printer.new }
    {
        match &mut self.state {
            State::Planning(planner) => plan(planner, request, place, printer),
            State::Collecting(steps) => match request {
                Request::Step { needs, gives } => printer.done(steps.step(needs, gives)),
                _ => {
                    let facts = mem::replace(steps, Steps::new(Bare));
                    let mut planner = Planner::new(self.number, facts);
                    plan(&mut planner, request, place, printer);
                    self.state = State::Planning(planner);
                }
            },
        }
    }
}

// Asks the planner. It comes too late for a step, which is a bad line now.
fn plan(
    planner: &mut Planner<Steps<Bare>>,
    request: Request<'_>,
    place: usize,
    printer: &mut Printer<'_>,
)
    ensures { Said (Plans planner.old place request.entry planner.new) printer.old printer.new }
{
    match request {
        Request::Step { .. } => printer.bad(place),
        Request::Write { line, words } => printer.written(planner.write(line, words)),
        Request::Strike { line } => printer.done(planner.strike(line)),
        Request::Rule {
            place,
            needs,
            unless,
            gives,
        } => { printer.done(planner.rule(place, needs, unless, gives)) }
        Request::Unrule { place } => printer.done(planner.unrule(place)),
        Request::List { from } => list(planner, from, printer),
    }
}

fn list(planner: &Planner<Steps<Bare>>, from: u32, printer: &mut Printer<'_>)
    ensures { Said (Pages planner.now from) printer.old printer.new }
{
    let mut page = [0; PAGE];
    match planner.list(from, &mut page) {
        Ok(listing) => printer.listed(&page, listing, planner.guesses(), planner.book()),
        Err(refusal) => printer.no(refusal),
    }
}
