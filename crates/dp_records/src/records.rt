//! A record is read and judged.
ghost use Rattle.std.specs.Prelude.{◌≡◌, ◌↔◌, ◌+◌, ◌≤◌, [], ◌++◌, Some, Ok, Err, ℕ, List, IfErr, IfOk, IsTrue, true};
ghost use Rattle.std.specs.Io.KnownBytes.{IsAtEnd};
ghost use Rattle.dp_outside.specs.Causes.{Rose};
ghost use Rattle.dp_outside.specs.Changes.{change};
ghost use Rattle.dp_wire.specs.Frames.{IsPacketText};
ghost use Rattle.dp_records.specs.Behaviours.{behaviour_of};
ghost use Rattle.dp_records.specs.Verdicts.{Judges};
ghost use Rattle.dp_records.specs.inner.Audits.{ComesEnd, FailsBy, HaltsWithin, IsReading};

use crate::lines::PIECE_LIMIT;
use crate::readings::{Halt, Reading};
use crate::sessions::Recorded;
use crate::verdict::{AuditError, Verdict};
use dp_conversation::Responder;
use dp_outside::Source;
use std::alloc::Global;

/// Reads lines up to the last one, or up to one that differs or is none of a record. Where the source gives its end
/// before, none is the next.
fn read_lines<A: Responder + Drop, S: Source>(
    alloc: Global,
    source: &mut S,
    reading: &mut Reading<A, A::End>,
) -> Result<Halt, AuditError>
    ensures halts { IfOk result (λ halt. (start : A) (init bytes : List ℕ) → S.left source.old ≡ Some bytes
        → IsReading A.step start init [] reading.old
        → (left : List ℕ) × (S.left source.new ≡ Some left)
        × HaltsWithin A.step start init halt bytes left reading.new) }
    ensures fails { IfErr result (λ why. FailsBy why (change S.left S.faults source.old source.new)) }
    ensures later { S.faults source.old ≤ S.faults source.new }
{
    let mut buffer = [0; PIECE_LIMIT];
    'pieces: for _ in 0..u64::MAX {
        let count = match source.take(&mut buffer) {
            Err(_) => return Err(AuditError::ReadFault),
            Ok(count) => count,
        };
        if count == 0 {
            return Ok(Halt::Bad);
        }
        if let Some(halt) = reading.take_piece(alloc, &buffer[..count])? {
            return Ok(halt);
        }
    }
    Err(AuditError::Memory)
}

/// Whether the source gives its end now.
fn is_at_end<S: Source>(source: &mut S) -> Result<bool, AuditError>
    ensures none { result ≡ Ok true → IsAtEnd (S.left source.new) }
    ensures is { (left : List ℕ) → S.left source.old ≡ Some left → IfOk result (λ at_end. IsTrue at_end ↔ (left ≡ [])) }
    ensures fails { IfErr result (λ why. FailsBy why (change S.left S.faults source.old source.new)) }
    ensures later { S.faults source.old ≤ S.faults source.new }
{
    let mut buffer = [0; 1];
    match source.take(&mut buffer) {
        Err(_) => Err(AuditError::ReadFault),
        Ok(count) => Ok(count == 0),
    }
}

/// Judges the last line, which has this number and tells this status, and then what follows it.
fn judge_end<A: Recorded + Drop, S: Source>(
    alloc: Global,
    source: &mut S,
    reading: Reading<A, A::End>,
    status: u8,
    more: bool,
    line: u64,
) -> Result<Verdict, AuditError>
    requires { line ≡ reading.number + 1 }
    ensures judged { (start : A) (init read left : List ℕ) → S.left source.old ≡ Some left
        → ComesEnd A.step start init status more read reading
        → Judges (behaviour_of A.step A.rest_after A.ending_after start init) (read ++ left) result }
    ensures whole { result ≡ Ok Verdict.Honest → IsAtEnd (S.left source.new) }
    ensures fault { result ≡ Err AuditError.ReadFault → Rose (S.faults source.old) (S.faults source.new) }
    ensures later { S.faults source.old ≤ S.faults source.new }
{
    let right = reading.audit.is_right(alloc, status)?;
    if !right {
        return Ok(Verdict::Differs { line });
    }
    let behind = line.checked_add(1).ok_or(AuditError::Memory)?;
    if more {
        return Err(AuditError::BadRecord { line: behind });
    }
    let at_end = is_at_end(source)?;
    if !at_end {
        return Err(AuditError::BadRecord { line: behind });
    }
    Ok(Verdict::Honest)
}

/// Reads a record to its end, or up to the first line that differs from what the session does that it is a record of,
/// or that is no line of a record there. It waits in the calls of the source alone.
///
/// `init` is the text of the session's first packet, and the session was asked nothing yet. Only what the session has
/// told and the record has not, or the other way round, is kept.
pub fn audit<A: Recorded + Drop, S: Source>(
    alloc: Global,
    session: A,
    init: &[u8],
    source: &mut S,
) -> Result<Verdict, AuditError>
    requires { IsPacketText init.now }
    ensures judged { (bytes : List ℕ) → S.left source.old ≡ Some bytes
        → Judges (behaviour_of A.step A.rest_after A.ending_after session init.now) bytes result }
    // An honest record was read to its end.
    ensures whole { result ≡ Ok Verdict.Honest → IsAtEnd (S.left source.new) }
    ensures fault { result ≡ Err AuditError.ReadFault → Rose (S.faults source.old) (S.faults source.new) }
    ensures later { S.faults source.old ≤ S.faults source.new }
{
    let mut reading = Reading::begin(alloc, session, init)?;
    let halt = read_lines(alloc, source, &mut reading)?;
    let line = reading.number.checked_add(1).ok_or(AuditError::Memory)?;
    match halt {
        Halt::Differs => Ok(Verdict::Differs { line }),
        Halt::Bad => Err(AuditError::BadRecord { line }),
        Halt::Ends { status, more } => judge_end(alloc, source, reading, status, more, line),
    }
}
