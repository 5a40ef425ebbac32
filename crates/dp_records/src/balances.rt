//! What a session and a record of it have told of one output.
ghost use Rattle.std.specs.Prelude.{◌≡◌, ◌↔◌, ◌++◌, [], ℕ, List, IsTrue, IfSome, IfNone, OnOk};
ghost use Rattle.dp_records.specs.inner.Balances.{AreApart, IsBalance, IsPaid, RecordReports, SessionReports};
ghost use Rattle.dp_conversation.specs.Growth.{Begins};

use dp_bytes::Memory;
use std::alloc::Global;
use std::collections::VecDeque;

/// What a session and a record of it have told of one output: of what they told alike nothing is kept.
#[derive(Debug, Drop)]
pub(crate) struct Balance {
    /// What the session has told, and the record has not yet.
    session: VecDeque<u8>,
    /// What the record has told, and the session has not yet.
    record: VecDeque<u8>,
    /// Whether they are alike as far as both go. Else nothing more is kept.
    same: bool,
}

/// Takes the bytes off what is owed, as far as both go, and answers those that are left; none where they differ.
fn pay<'a>(owed: &mut VecDeque<u8>, bytes: &'a [u8]) -> Option<&'a [u8]>
    ensures paid { IfSome result (λ rest. IsPaid owed.old.items owed.new.items bytes.now rest.now) }
    ensures apart { IfNone result (AreApart owed.old.items bytes.now) }
{
    for at in 0..bytes.len() {
        match owed.pop_front() {
            None => return Some(&bytes[at..]),
            Some(byte) if byte == bytes[at] => {}
            Some(_) => return None,
        }
    }
    Some(&[])
}

/// Puts the bytes behind what is owed.
fn owe(owed: &mut VecDeque<u8>, bytes: &[u8]) -> Result<(), Memory>
    ensures { OnOk result (owed.new.items ≡ owed.old.items ++ bytes.now) }
{
    for byte in bytes {
        owed.push_back(*byte)?;
    }
    Ok(())
}

impl Balance {
    /// Neither has told anything. Takes no memory.
    pub(crate) fn new(alloc: Global) -> Balance
        ensures { IsBalance result [] [] }
    {
        Balance {
            session: VecDeque::new(alloc),
            record: VecDeque::new(alloc),
            same: true,
        }
    }

    /// The session tells these bytes.
    pub(crate) fn session_reports(&mut self, bytes: &[u8]) -> Result<(), Memory>
        ensures { OnOk result (SessionReports self.old self.new bytes.now) }
    {
        if !self.same {
            return Ok(());
        }
        match pay(&mut self.record, bytes) {
            Some(rest) => owe(&mut self.session, rest),
            None => {
                self.same = false;
                Ok(())
            }
        }
    }

    /// The record tells these bytes.
    pub(crate) fn record_reports(&mut self, bytes: &[u8]) -> Result<(), Memory>
        ensures { OnOk result (RecordReports self.old self.new bytes.now) }
    {
        if !self.same {
            return Ok(());
        }
        match pay(&mut self.session, bytes) {
            Some(rest) => owe(&mut self.record, rest),
            None => {
                self.same = false;
                Ok(())
            }
        }
    }

    /// Whether what the record has told begins what the session has.
    pub(crate) fn is_front(&self) -> bool
        ensures { (told other : List ℕ) → IsBalance self.now told other → IsTrue result ↔ Begins other told }
    {
        self.same && self.record.is_empty()
    }

    /// Whether both have told the same.
    pub(crate) fn is_even(&self) -> bool
        ensures { (told other : List ℕ) → IsBalance self.now told other → IsTrue result ↔ (other ≡ told) }
    {
        self.same && self.record.is_empty() && self.session.is_empty()
    }
}
