//! A record that is read in pieces, line by line.
ghost use Rattle.std.specs.Prelude.{◌≡◌, ◌≢◌, ◌↔◌, [], ◌++◌, ℕ, List, IfOk, IfSome, IfNone, IsTrue, true};
ghost use Rattle.dp_wire.specs.Frames.{IsPacketText};
ghost use Rattle.dp_records.specs.inner.Audits.{EndsLine, HasLine, IsReading, ReadsOn, TakesLine, has_no_feed};

use crate::audits::{Audit, Fit};
use crate::lines::{Line, PIECE_LIMIT, line_in};
use dp_bytes::Memory;
use dp_conversation::Responder;
use std::alloc::Global;

/// The most bytes of a line: a word of three letters, a space, two digits for each byte, and a line feed.
const LINE_LIMIT: usize = 5 + 2 * PIECE_LIMIT;

/// A record of which some lines were read, and the session that follows it.
#[derive(Debug, Drop)]
pub(crate) struct Reading<A, E> {
    pub(crate) audit: Audit<A, E>,
    /// The front of a line that has not come whole.
    line: Vec<u8>,
    /// How many lines were read.
    pub(crate) number: u64,
}

/// Why no further line is read.
#[derive(Clone, Copy, Debug, PartialEq, Eq)]
pub(crate) enum Halt {
    /// The line was the last one, with this status; whether there is more behind it.
    Ends { status: u8, more: bool },
    /// It differs.
    Differs,
    /// It is none of a record.
    Bad,
}

/// The bytes up to the first line feed, with it, and those behind it.
fn first_line(bytes: &[u8]) -> Option<(&[u8], &[u8])>
    ensures cut { IfSome result (λ cut. EndsLine cut.0.now × (bytes.now ≡ cut.0.now ++ cut.1.now)) }
    ensures none { IfNone result (has_no_feed bytes.now ≡ true) }
{
    for at in 0..bytes.len() {
        if bytes[at] == b'\n' {
            return Some(bytes.split_at(at + 1));
        }
    }
    None
}

impl<A: Responder + Drop> Reading<A, A::End> {
    /// A record of which nothing was read.
    pub(crate) fn begin(alloc: Global, session: A, init: &[u8]) -> Result<Self, Memory>
        requires { IsPacketText init.now }
        ensures { IfOk result (λ reading. IsReading A.step session init.now [] reading) }
    {
        let audit = Audit::begin(alloc, session, init)?;
        Ok(Reading {
            audit,
            line: Vec::new(alloc),
            number: 0,
        })
    }

    /// Takes the line that has come whole. Where there are too many lines for their number it is out of memory.
    fn take_line(&mut self, alloc: Global, more: bool) -> Result<Option<Halt>, Memory>
        ensures { IfOk result (λ halt. (start : A) (init bytes behind : List ℕ) → IsTrue more ↔ (behind ≢ [])
            → HasLine A.step start init bytes self.old → TakesLine A.step start init halt bytes behind self.new) }
    {
        match line_in(alloc, self.line.as_slice())? {
            None => Ok(Some(Halt::Bad)),
            Some(Line::Ends(status)) => Ok(Some(Halt::Ends { status, more })),
            Some(Line::Reported(entry)) => match self.audit.take(alloc, entry)? {
                Fit::Differs => Ok(Some(Halt::Differs)),
                Fit::TooMuch => Ok(Some(Halt::Bad)),
                Fit::Fits => {
                    self.line.clear();
                    self.number = self.number.checked_add(1).ok_or(Memory)?;
                    Ok(None)
                }
            },
        }
    }

    /// Reads one piece more.
    pub(crate) fn take_piece(&mut self, alloc: Global, piece: &[u8]) -> Result<Option<Halt>, Memory>
        ensures { IfOk result (λ halt. (start : A) (init bytes : List ℕ)
            → IsReading A.step start init bytes self.old
            → ReadsOn A.step start init halt (bytes ++ piece.now) self.new) }
    {
        let mut rest = piece;
        'lines: while let Some((line, behind)) = first_line(rest) {
            self.line.extend_from_slice(line)?;
            if let Some(halt) = self.take_line(alloc, !behind.is_empty())? {
                return Ok(Some(halt));
            }
            rest = behind;
        }
        self.line.extend_from_slice(rest)?;
        if self.line.len() > LINE_LIMIT {
            return Ok(Some(Halt::Bad));
        }
        Ok(None)
    }
}
