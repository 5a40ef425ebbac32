//! A record of a session is judged.
ghost use Rattle.std.specs.Prelude.{◌≡◌, ◌<◌, ◌≤◌, Some, Ok, Err, ℕ, List, length, map};
ghost use Rattle.std.specs.Io.KnownBytes.{IsAtEnd};
ghost use Rattle.dp_audit.specs.Sessions.{session};
ghost use Rattle.dp_outside.specs.Causes.{Rose};
ghost use Rattle.dp_outside.specs.Names.{key_limit};
ghost use Rattle.dp_records.specs.Verdicts.{Judges};
ghost use Rattle.dp_tree.specs.FileNames.{AreFileNames};

use crate::sessions::Debugged;
use dp_engine::{Session, Steps};
use dp_outside::Source;
use dp_records::{AuditError, Verdict};
use dp_tree::Bundle;
use std::alloc::Global;
use std::marker::Brand;
use std::sync::ledger::{Blank, Ledger};

/// The same, with a ledger for the session's steps.
fn audit_with<S: Source, L: Ledger>(
    alloc: Global,
    bundle: &Bundle,
    key: &[u8],
    bound: u64,
    source: &mut S,
    blank: Blank,
) -> Result<Verdict, AuditError>
    requires name { blank.name ≡ L.name }
    requires parts { blank.parts ≡ L.parts }
    requires some { 0 < blank.parts }
    requires key { length key.now ≤ key_limit }
    requires names { AreFileNames (map (λ f. f.name) bundle.now.files) }
    ensures judged { (bytes : List ℕ) → S.left source.old ≡ Some bytes
        → Judges (session bundle.now bound key.now) bytes result }
    ensures whole { result ≡ Ok Verdict.Honest → IsAtEnd (S.left source.new) }
    ensures fault { result ≡ Err AuditError.ReadFault → Rose (S.faults source.old) (S.faults source.new) }
    ensures later { S.faults source.old ≤ S.faults source.new }
{
    match Session::begin(alloc, bundle, key, bound) {
        Ok((session, init)) => {
            let mut steps = Steps::<L>::new(blank);
            let session = Debugged {
                session,
                steps: &mut steps,
            };
            dp_records::audit(alloc, session, init.as_slice(), source)
        }
        Err(_) => Err(AuditError::Memory),
    }
}

/// Reads a record of a session with this key, over a program that may have so many moments: whether it is honest, or
/// the first line that differs from what the session does, or that no record has there. What stands behind that
/// line changes nothing, but may have been read. It waits in the calls of the source alone.
///
/// The key has at most 128 bytes, and the files of the program have names of files. One session is kept, and what it
/// has told and the record has not, or the other way round.
pub fn audit<S: Source>(
    alloc: Global,
    bundle: &Bundle,
    key: &[u8],
    bound: u64,
    source: &mut S,
) -> Result<Verdict, AuditError>
    requires key { length key.now ≤ key_limit }
    requires names { AreFileNames (map (λ f. f.name) bundle.now.files) }
    ensures judged { (bytes : List ℕ) → S.left source.old ≡ Some bytes
        → Judges (session bundle.now bound key.now) bytes result }
    // An honest record was read to its end.
    ensures whole { result ≡ Ok Verdict.Honest → IsAtEnd (S.left source.new) }
    ensures fault { result ≡ Err AuditError.ReadFault → Rose (S.faults source.old) (S.faults source.new) }
    ensures later { S.faults source.old ≤ S.faults source.new }
{
    // Nobody asks for the steps.
    let blank = Blank::new(1);
    audit_with::<S, Brand>(alloc, bundle, key, bound, source, blank)
}
