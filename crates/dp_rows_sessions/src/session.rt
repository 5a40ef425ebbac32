//! A session without an engine: moments of a program, breakpoints that are passed there, and what is shown of its
//! states.
//!
//! The fields of a row are done in their order: `at N` goes to the moment of this number, `line N` to the first moment
//! on this line, `pass` goes from the first moment to the end and tells where a breakpoint stops, `moments` tells each
//! moment, `limits CHILDREN BYTES DEPTH` says how much is shown, `ask COMMAND` gives the packet that answers a command,
//! and `fill N COMMAND` asks it so many times and tells nothing. `evaluate N EXPRESSION` has each run after it evaluate
//! an expression at the moment of this number, and `place N NAME EXPRESSION` has it give the place of a name a value.

use crate::answers::{packet_for, put_packet};
use crate::moments::{put_end, put_moment};
use crate::writes::{evaluation, placing};
use dp_break::Breaks;
use dp_bytes::{Bytes, Items};
use dp_meaning::{NumberedWrite, Stop, run_to};
use dp_parse::parse_file;
use dp_rows::{Field, Memory, Row, at_space, number_of, unescaped};
use dp_state::{Moment, State};
use dp_tree::{Bundle, BundleFile, Files};
use dp_view::Paging;
use std::alloc::Global;

/// The most moments of a program in a row.
const BOUND: u64 = 1000;

/// A session: its program, the state at its moment if it is at one, its breakpoints, and how much it shows.
#[derive(Drop)]
pub(crate) struct Session {
    pub(crate) alloc: Global,
    pub(crate) bundle: Bundle,
    pub(crate) state: Option<State>,
    pub(crate) breaks: Breaks,
    pub(crate) paging: Paging,
    writes: Vec<NumberedWrite>,
}

/// The program of a row's files, or nothing where one of them is none.
fn program(alloc: Global, row: &Row<'_>) -> Result<Option<Bundle>, Memory> {
    let mut files = Vec::new(alloc);
    for field in row.fields.iter() {
        if field.name == b"file".as_slice() {
            let text = field.content(alloc)?;
            match file_of(alloc, field.text, text)? {
                Some(file) => files.push(file)?,
                None => return Ok(None),
            }
        }
    }
    let files = Files::of(alloc, Items::of(files))?;
    Ok(Some(Bundle { files }))
}

/// A file of this name and text, or nothing where the text is no program.
fn file_of(alloc: Global, name: &[u8], text: Vec<u8>) -> Result<Option<BundleFile>, Memory> {
    if text.len() > 1_000_000 {
        return Ok(None);
    }
    let name = Bytes::from_slice(alloc, name)?;
    match parse_file(alloc, text.as_slice()) {
        Ok(tree) => Ok(Some(BundleFile {
            name,
            text: Bytes::of(text),
            tree,
        })),
        Err(_) => Ok(None),
    }
}

/// Whether a field of this name says something else than what is done.
fn is_other(name: &[u8]) -> bool {
    name == b"file".as_slice() || name == b"gives".as_slice()
}

/// A session of a program, before its first moment.
fn started(alloc: Global, bundle: Bundle) -> Session {
    Session {
        alloc,
        bundle,
        state: None,
        breaks: Breaks::new(alloc),
        paging: Paging {
            children: 32,
            bytes: 1024,
            depth: 1,
            page: 0,
        },
        writes: Vec::new(alloc),
    }
}

/// What comes of the fields of a row in a session.
fn told_fields(session: &mut Session, row: &Row<'_>) -> Result<String, Memory> {
    let mut text = String::new(session.alloc);
    for field in row.fields.iter() {
        session.do_field(&mut text, field)?;
    }
    Ok(text)
}

/// What comes of the fields of a row.
pub(crate) fn told_session(alloc: Global, row: &Row<'_>) -> Result<String, Memory> {
    match program(alloc, row)? {
        Some(bundle) => {
            let mut session = started(alloc, bundle);
            told_fields(&mut session, row)
        }
        None => String::from_str(alloc, "no program"),
    }
}

/// The number at this place of numbers between spaces, or 0.
fn number_at(text: &[u8], at: usize) -> u64 {
    match text.split(|byte| *byte == b' ').nth(at) {
        Some(digits) => number_of(digits).unwrap_or(0),
        None => 0,
    }
}

/// Whether a moment is on a line, or behind the end.
#[derive(Clone, Copy)]
enum Place {
    Here,
    Elsewhere,
    Behind,
}

/// Puts a moment, or how the program ended before it.
fn put_stop(text: &mut String, stop: &Stop) -> Result<(), Memory> {
    match stop {
        Stop::At(moment, _) => put_moment(text, moment),
        Stop::Ended(outcome, state) => put_end(text, *outcome, state),
    }
}

/// The state at a moment.
fn state_at(stop: Stop) -> Option<State> {
    match stop {
        Stop::At(_, state) => Some(state),
        Stop::Ended(_, _) => None,
    }
}

impl Session {
    /// Does what a field says.
    fn do_field(&mut self, text: &mut String, field: &Field<'_>) -> Result<(), Memory> {
        if field.name == b"at".as_slice() {
            self.go(text, field.number().unwrap_or(0))
        } else if field.name == b"line".as_slice() {
            self.go_to_line(text, field.number().unwrap_or(0))
        } else if field.name == b"pass".as_slice() {
            self.pass(text)
        } else if field.name == b"moments".as_slice() {
            self.moments(text)
        } else if field.name == b"limits".as_slice() {
            self.limit(field.text);
            Ok(())
        } else {
            self.do_command(text, field)
        }
    }

    /// Does what a field says that asks a command or has a write made.
    fn do_command(&mut self, text: &mut String, field: &Field<'_>) -> Result<(), Memory> {
        if field.name == b"ask".as_slice() {
            self.ask(text, field)
        } else if field.name == b"fill".as_slice() {
            self.fill(field)
        } else if field.name == b"evaluate".as_slice() {
            self.write(text, evaluation(self.alloc, field.text)?)
        } else if field.name == b"place".as_slice() {
            let write = self.placed(field.text)?;
            self.write(text, write)
        } else if is_other(field.name) {
            Ok(())
        } else {
            text.push_str("unknown field\n")?;
            Ok(())
        }
    }

    /// The write that a field names, over the program of this session.
    fn placed(&self, text: &[u8]) -> Result<Option<NumberedWrite>, Memory> {
        placing(self.alloc, &self.bundle, text)
    }

    /// Sets how much is shown.
    fn limit(&mut self, text: &[u8]) {
        self.paging.children = number_at(text, 0);
        self.paging.bytes = number_at(text, 1);
        self.paging.depth = number_at(text, 2).min(32) as u32;
    }

    /// The stop at the moment of this number.
    fn stop_at(&self, number: u64) -> Result<Stop, Memory> {
        let writes = self.writes.as_slice();
        run_to(self.alloc, &self.bundle, writes, number, BOUND)
    }

    /// Goes to a moment. Tells it, or how the program ended before it.
    fn go(&mut self, text: &mut String, number: u64) -> Result<(), Memory> {
        let stop = self.stop_at(number)?;
        let told = put_stop(text, &stop);
        self.state = state_at(stop);
        told
    }

    /// Goes to a moment if it is on a line.
    fn try_line(&mut self, number: u64, line: u64) -> Result<Place, Memory> {
        match self.stop_at(number)? {
            Stop::At(moment, state) => {
                if u64::from(moment.line) == line {
                    self.state = Some(state);
                    Ok(Place::Here)
                } else {
                    Ok(Place::Elsewhere)
                }
            }
            Stop::Ended(_, _) => Ok(Place::Behind),
        }
    }

    /// Goes to the first moment on a line.
    fn go_to_line(&mut self, text: &mut String, line: u64) -> Result<(), Memory> {
        for number in 1..BOUND {
            match self.try_line(number, line)? {
                Place::Here => return Ok(()),
                Place::Elsewhere => (),
                Place::Behind => break,
            }
        }
        text.push_str("no moment is on this line\n")?;
        Ok(())
    }

    /// Tells each moment, and the end.
    fn moments(&mut self, text: &mut String) -> Result<(), Memory> {
        for number in 1..BOUND {
            self.go(text, number)?;
            if self.state.is_none() {
                break;
            }
        }
        Ok(())
    }

    /// Passes all moments, and tells where a breakpoint stops.
    fn pass(&mut self, text: &mut String) -> Result<(), Memory> {
        text.push_str("stops at")?;
        for number in 1..BOUND {
            match run_to(
                self.alloc,
                &self.bundle,
                self.writes.as_slice(),
                number,
                BOUND,
            )? {
                Stop::At(moment, state) => self.pass_at(text, &moment, &state)?,
                Stop::Ended(_, _) => break,
            }
        }
        text.push('\n')?;
        Ok(())
    }

    /// Passes a moment, and puts its number where a breakpoint stops.
    fn pass_at(&mut self, text: &mut String, moment: &Moment, state: &State) -> Result<(), Memory> {
        if self.breaks.pass(&self.bundle, moment, state)? {
            let number = moment.number;
            write!(text, " {number}")?;
        }
        Ok(())
    }

    /// Answers a command.
    fn ask(&mut self, text: &mut String, field: &Field<'_>) -> Result<(), Memory> {
        let line = field.bytes(self.alloc)?;
        match packet_for(self, line.as_slice())? {
            Some(packet) => put_packet(self.alloc, text, &packet),
            None => {
                text.push_str("no packet\n")?;
                Ok(())
            }
        }
    }

    /// Answers a command so many times, and tells nothing.
    fn fill(&mut self, field: &Field<'_>) -> Result<(), Memory> {
        let (count, command) = at_space(field.text);
        let line = unescaped(self.alloc, command)?;
        for _ in 0..number_of(count).unwrap_or(0) {
            let _ = packet_for(self, line.as_slice())?;
        }
        Ok(())
    }

    /// Has each run from now on make a write, if there is one.
    fn write(&mut self, text: &mut String, write: Option<NumberedWrite>) -> Result<(), Memory> {
        match write {
            Some(write) => self.writes.push(write)?,
            None => text.push_str("no write\n")?,
        }
        Ok(())
    }
}
