//! Why a command fails, and what is reported of it.
ghost use Rattle.std.specs.Prelude.{◌≡◌, ◌⊎◌, ◌≤◌, ◌++◌, IfOk, codes, decimal};
ghost use Rattle.dp_outside.specs.Changes.{change};
ghost use Rattle.dp_top.specs.Sources.{failure_of, reason_name, bad_source};
ghost use Rattle.dp_top.specs.Failures.{status_of, line_of, kind_name, fatal_line, found_text, script_line, Says};
ghost use Rattle.dp_top.specs.Statuses.{memory_status};

use crate::statuses;
use dp_bytes::{Bytes, Memory};
use dp_conversation::put_unless_empty;
use dp_lexer::LexError;
use dp_outside::Sink;
use dp_parse::ParseError;
use dp_state::{FatalKind, KILLED_STATUS, UNFINISHED_STATUS};
use dp_tree::FILE_LIMIT;
use std::alloc::{AllocError, AllocFailed, Global};

/// Why the parser refuses a file.
#[derive(Clone, Copy, Debug, PartialEq, Eq)]
pub(crate) enum Reason {
    BadByte,
    OpenString,
    OpenComment,
    WideNumber,
    Unexpected,
    TooDeep,
    DoubleFunction,
}

impl Reason {
    /// Its name on the error output.
    fn name(self) -> &'static [u8]
        ensures { result.now ≡ reason_name self }
    {
        match self {
            Reason::BadByte => b"BadByte",
            Reason::OpenString => b"OpenString",
            Reason::OpenComment => b"OpenComment",
            Reason::WideNumber => b"WideNumber",
            Reason::Unexpected => b"Unexpected",
            Reason::TooDeep => b"TooDeep",
            Reason::DoubleFunction => b"DoubleFunction",
        }
    }
}

/// Why a command fails.
#[derive(Debug, Drop)]
pub(crate) enum Failure {
    /// The file is longer than 1,048,576 bytes.
    TooLong,
    /// The file is no program. The number is an offset or that of a token, from 0.
    Source {
        reason: Reason,
        number: u64,
    },
    /// The shelf failed.
    ShelfFailed,
    /// The shelf has no file of that name.
    NoFile,
    /// The program could not go on, on this line of the file.
    Fatal {
        kind: FatalKind,
        line: u32,
    },
    /// The program would have had more moments than this.
    Bound {
        steps: u64,
    },
    /// An output failed.
    Output,
    /// The script has a line that is none of a script, the first of which has this number; 0 where it is too long.
    Script {
        line: u64,
    },
    /// On this line of the script something else was found than it wants, or nothing.
    Differs {
        line: u64,
        wanted: Bytes,
        found: Option<Bytes>,
    },
    /// The input ended inside a frame, or a link before a packet that was awaited.
    PeerEnd,
    /// No command and no packet stands at this offset from the first byte read.
    Packet {
        offset: u64,
    },
    /// The link failed.
    Network,
    /// A command stopped the program before its end.
    Stopped,
    /// On this line a record tells something else than its session does.
    Lies {
        line: u64,
    },
    /// Out of memory.
    Memory,
}

/// A failure, and the name of the file that it is of, where it is of one, else nothing.
#[derive(Debug, Drop)]
pub(crate) struct Refused<'a> {
    pub(crate) failure: Failure,
    pub(crate) name: &'a [u8],
}

impl<'a> Refused<'a> {
    ghost use Rattle.std.specs.Prelude.{◌≡◌, []};

    /// A failure that names no file.
    pub(crate) fn unnamed(failure: Failure) -> Refused<'a>
        ensures failure { result.failure ≡ failure }
        ensures name { result.name.now ≡ [] }
    {
        Refused { failure, name: b"" }
    }
}

impl From<AllocError> for Failure {
    ghost use Rattle.std.specs.Prelude.{◌≡◌};
    ghost use Rattle.dp_top.specs.declared.failures.Failure.TheVariants.{Memory};

    ghost from_gives = { λ _ e. e ≡ Memory };

    fn from(_: AllocError) -> Self {
        Failure::Memory
    }
}

impl<T: Drop> From<AllocFailed<T>> for Failure {
    ghost use Rattle.std.specs.Prelude.{◌≡◌};
    ghost use Rattle.dp_top.specs.declared.failures.Failure.TheVariants.{Memory};

    ghost from_gives = { λ _ e. e ≡ Memory };

    fn from(_: AllocFailed<T>) -> Self {
        Failure::Memory
    }
}

/// The failure that a refusal of the parser is.
pub(crate) fn refusal(why: &ParseError) -> Failure
    ensures { result ≡ failure_of why.now }
{
    match why {
        ParseError::Lex(why) => lexical(*why),
        ParseError::Unexpected { token } => source(Reason::Unexpected, *token as u64),
        ParseError::TooDeep { token } => source(Reason::TooDeep, *token as u64),
        ParseError::DoubleFunction { name: _ } => source(Reason::DoubleFunction, 0),
        ParseError::Memory => Failure::Memory,
    }
}

/// The failure that a refusal of the lexer is.
fn lexical(why: LexError) -> Failure
    ensures { result ≡ failure_of (ParseError.Lex why) }
{
    match why {
        LexError::BadByte { offset } => source(Reason::BadByte, u64::from(offset)),
        LexError::OpenString { offset } => source(Reason::OpenString, u64::from(offset)),
        LexError::OpenComment { offset } => source(Reason::OpenComment, u64::from(offset)),
        LexError::WideNumber { offset } => source(Reason::WideNumber, u64::from(offset)),
        LexError::Memory => Failure::Memory,
    }
}

/// The failure of a file that is no program, for this reason and with this number.
fn source(reason: Reason, number: u64) -> Failure
    ensures { result ≡ Failure.Source reason number }
{
    Failure::Source { reason, number }
}

impl Failure {
    /// The status that the call answers.
    fn status(&self) -> u8
        ensures { result ≡ status_of self.now }
    {
        match self {
            Failure::TooLong => statuses::SOURCE,
            Failure::Source {
                reason: _,
                number: _,
            } => statuses::SOURCE,
            Failure::ShelfFailed => statuses::SHELF,
            Failure::NoFile => statuses::SHELF,
            Failure::Fatal { kind: _, line: _ } => UNFINISHED_STATUS,
            Failure::Bound { steps: _ } => UNFINISHED_STATUS,
            Failure::Output => statuses::OUTPUT,
            Failure::Script { line: _ } => statuses::SCRIPT,
            Failure::Differs {
                line: _,
                wanted: _,
                found: _,
            } => statuses::DIFFERS,
            Failure::PeerEnd => statuses::PEER_END,
            Failure::Packet { offset: _ } => statuses::PACKET,
            Failure::Network => statuses::NETWORK,
            Failure::Stopped => KILLED_STATUS,
            Failure::Lies { line: _ } => statuses::LIES,
            Failure::Memory => statuses::MEMORY,
        }
    }

    /// The line on the error output.
    fn line(&self, alloc: Global, file: &[u8]) -> Result<Bytes, Memory>
        ensures { IfOk result (λ line. line ≡ line_of self.now file.now) }
    {
        match self {
            Failure::TooLong => bad_source(alloc, file, b"TooLong", FILE_LIMIT as u64),
            Failure::Source { reason, number } => bad_source(alloc, file, reason.name(), *number),
            Failure::ShelfFailed => named(alloc, b"shelf failed ", file, b"\n"),
            Failure::NoFile => named(alloc, b"no file ", file, b"\n"),
            Failure::Fatal { kind, line } => fatal(alloc, kind_name(*kind), file, *line),
            Failure::Bound { steps } => bound_reached(alloc, *steps),
            Failure::Output => Bytes::from_slice(alloc, b"output failed\n"),
            Failure::Script { line } => bad_script(alloc, *line),
            Failure::Differs {
                line,
                wanted,
                found,
            } => differs(alloc, *line, wanted.as_slice(), found_text(found)),
            Failure::PeerEnd => Bytes::from_slice(alloc, b"peer ended\n"),
            Failure::Packet { offset } => bad_packet(alloc, *offset),
            Failure::Network => Bytes::from_slice(alloc, b"network failed\n"),
            Failure::Stopped => Bytes::from_slice(alloc, b"stopped by the IDE\n"),
            // What differs was printed.
            Failure::Lies { line: _ } => Ok(Bytes::of(Vec::new(alloc))),
            Failure::Memory => Bytes::from_slice(alloc, b"out of memory\n"),
        }
    }
}

/// A line that names a file.
fn named(alloc: Global, front: &[u8], file: &[u8], back: &[u8]) -> Result<Bytes, Memory>
    ensures { IfOk result (λ line. line ≡ front.now ++ file.now ++ back.now) }
{
    let mut line = Vec::from_slice(alloc, front)?;
    line.extend_from_slice(file)?;
    line.extend_from_slice(back)?;
    Ok(Bytes::of(line))
}

/// The line on a file that is refused.
fn bad_source(alloc: Global, file: &[u8], reason: &[u8], number: u64) -> Result<Bytes, Memory>
    ensures { IfOk result (λ line. line ≡ bad_source file.now reason.now number) }
{
    let digits = number.to_string(alloc)?;
    let mut line = Vec::from_slice(alloc, b"bad source ")?;
    line.extend_from_slice(file)?;
    line.extend_from_slice(b" ")?;
    line.extend_from_slice(reason)?;
    line.extend_from_slice(b" ")?;
    line.extend_from_slice(digits.as_bytes())?;
    line.extend_from_slice(b"\n")?;
    Ok(Bytes::of(line))
}

/// The name of a fatal fault on the error output.
fn kind_name(kind: FatalKind) -> &'static [u8]
    ensures { result.now ≡ kind_name kind }
{
    match kind {
        FatalKind::Overflow => b"Overflow",
        FatalKind::DivByZero => b"DivByZero",
        FatalKind::BadKey => b"BadKey",
        FatalKind::NextIndex => b"NextIndex",
        FatalKind::Unsupported => b"Unsupported",
        FatalKind::TooHeavy => b"TooHeavy",
        FatalKind::NoFunction => b"NoFunction",
        FatalKind::Arguments => b"Arguments",
        FatalKind::Redeclared => b"Redeclared",
        FatalKind::TooDeep => b"TooDeep",
        FatalKind::NoFile => b"NoFile",
        FatalKind::Scalar => b"Scalar",
        FatalKind::OutputFull => b"OutputFull",
        FatalKind::NoConstant => b"NoConstant",
    }
}

/// The line on a fatal fault.
fn fatal(alloc: Global, kind: &[u8], file: &[u8], line: u32) -> Result<Bytes, Memory>
    ensures { IfOk result (λ text. text ≡ fatal_line kind.now file.now line) }
{
    let digits = line.to_string(alloc)?;
    let mut text = Vec::from_slice(alloc, b"fatal ")?;
    text.extend_from_slice(kind)?;
    text.extend_from_slice(b" in ")?;
    text.extend_from_slice(file)?;
    text.extend_from_slice(b" on line ")?;
    text.extend_from_slice(digits.as_bytes())?;
    text.extend_from_slice(b"\n")?;
    Ok(Bytes::of(text))
}

/// The line on a bound that was reached.
fn bound_reached(alloc: Global, steps: u64) -> Result<Bytes, Memory>
    ensures { IfOk result (λ line. line ≡ codes "bound reached after " ++ decimal steps ++ codes " steps\n") }
{
    let digits = steps.to_string(alloc)?;
    named(
        alloc,
        b"bound reached after ",
        digits.as_bytes(),
        b" steps\n",
    )
}

/// The line on an offset at which no command and no packet stands.
fn bad_packet(alloc: Global, offset: u64) -> Result<Bytes, Memory>
    ensures { IfOk result (λ line. line ≡ codes "bad packet offset " ++ decimal offset ++ codes "\n") }
{
    let digits = offset.to_string(alloc)?;
    named(alloc, b"bad packet offset ", digits.as_bytes(), b"\n")
}

/// The line on a script that is none.
fn bad_script(alloc: Global, line: u64) -> Result<Bytes, Memory>
    ensures { IfOk result (λ text. text ≡ script_line line) }
{
    let digits = line.to_string(alloc)?;
    named(alloc, b"bad script line ", digits.as_bytes(), b"\n")
}

/// What was found, or that nothing was.
fn found_text(found: &Option<Bytes>) -> &[u8]
    ensures { result.now ≡ found_text found.now }
{
    match found {
        Some(found) => found.as_slice(),
        None => b"nothing",
    }
}

/// The line on an expectation that differs.
fn differs(alloc: Global, line: u64, wanted: &[u8], found: &[u8]) -> Result<Bytes, Memory>
    ensures { IfOk result (λ text. text ≡ codes "differs line " ++ decimal line ++ codes " wanted " ++ wanted.now
        ++ codes " found " ++ found.now ++ codes "\n") }
{
    let digits = line.to_string(alloc)?;
    let mut text = Vec::from_slice(alloc, b"differs line ")?;
    text.extend_from_slice(digits.as_bytes())?;
    text.extend_from_slice(b" wanted ")?;
    text.extend_from_slice(wanted)?;
    text.extend_from_slice(b" found ")?;
    text.extend_from_slice(found)?;
    text.extend_from_slice(b"\n")?;
    Ok(Bytes::of(text))
}

/// Puts a line, if there is one. A line that the output refuses is dropped.
pub(crate) fn say<E: Sink>(err: &mut E, line: &[u8])
    ensures says { Says (change E.taken E.faults err.old err.new) line.now }
    ensures later { E.faults err.old ≤ E.faults err.new }
{
    let _ = put_unless_empty(err, line);
}

/// Tells a failure on the error output, and answers its status; out of memory where there is none for its line.
pub(crate) fn report<E: Sink>(alloc: Global, failure: &Failure, file: &[u8], err: &mut E) -> u8
    ensures reported { ((result ≡ status_of failure.now)
        × Says (change E.taken E.faults err.old err.new) (line_of failure.now file.now))
        ⊎ ((result ≡ memory_status) × Says (change E.taken E.faults err.old err.new) (codes "out of memory\n")) }
    ensures later { E.faults err.old ≤ E.faults err.new }
{
    match failure.line(alloc, file) {
        Ok(line) => {
            say(err, line.as_slice());
            failure.status()
        }
        Err(_) => {
            say(err, b"out of memory\n");
            statuses::MEMORY
        }
    }
}
