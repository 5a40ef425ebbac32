//! The entries, each with what it changes beside the journal. Memory is taken before anything changes.

ghost use Rattle.std.specs.Prelude.{◌≡◌, ◌==◌, ◌<◌, ◌≤◌, ◌-◌, List, ℕ, length, Some, bytes_eq, filter, not};
ghost use Rattle.std.specs.Prelude.{if◌then◌else◌, slice_get};
ghost use Rattle.dp_registry.specs.inner.Kept.{admitted_key};
ghost use Rattle.dp_registry.specs.inner.Tables.{sessions_of};

use crate::entry::{AdmitReply, Entry};
use crate::registry::Registry;
use crate::sessions::LiveSessions;
use dp_bytes::{Bytes, Memory};

impl Registry {
    ghost use Rattle.std.specs.Prelude.{◌≡◌, ◌++◌, ◌∷◌, [], false, Contains, OnOk, OnErr};
    ghost use Rattle.dp_registry.specs.declared.entry.Entry.TheVariants as entry;
    ghost use Rattle.dp_registry.specs.declared.entry.AdmitReply.TheVariants as reply;
    ghost use Rattle.dp_registry.specs.Journal.{IsNew, live, next_session};
    ghost use Rattle.dp_registry.specs.Legal.{IsFit};
    ghost use Rattle.dp_registry.specs.Verdicts.{is_full, is_crowded};
    ghost use Rattle.dp_registry.specs.inner.Kept.{IsIdle};

    /// Notes a call that changes neither who holds a key nor which sessions are live.
    pub(crate) fn note(&mut self, entry: Entry) -> Result<(), Memory>
        requires fit { IsFit self.old entry }
        requires idle { IsIdle entry }
        requires room { is_full self.old ≡ false }
        ensures ok { OnOk result (self.new ≡ self.old ++ entry ∷ []) }
        ensures err { OnErr result (self.new ≡ self.old) }
    {
        self.journal.reserve(self.living + 1)?;
        self.journal.push_reserved(entry);
        Ok(())
    }

    /// Notes a registration that is accepted.
    pub(crate) fn hold(
        &mut self,
        host: Bytes,
        port: u16,
        key: Bytes,
        multiple: bool,
    ) -> Result<(), Memory>
        requires fit { IsFit self.old (entry.Register host port key multiple 0) }
        requires room { is_full self.old ≡ false }
        ensures ok { OnOk result (self.new ≡ self.old ++ entry.Register host port key multiple 0 ∷ []) }
        ensures err { OnErr result (self.new ≡ self.old) }
    {
        let again = key.try_clone()?;
        let at = self.journal.len();
        self.journal.reserve(self.living + 1)?;
        self.held.set(again, at)?;
        self.journal.push_reserved(Entry::Register {
            host,
            port,
            key,
            multiple,
            reply: 0,
        });
        Ok(())
    }

    /// Notes a stop that is accepted.
    pub(crate) fn release(&mut self, host: Bytes, key: Bytes) -> Result<(), Memory>
        requires fit { IsFit self.old (entry.Stop host key 0) }
        requires room { is_full self.old ≡ false }
        ensures ok { OnOk result (self.new ≡ self.old ++ entry.Stop host key 0 ∷ []) }
        ensures err { OnErr result (self.new ≡ self.old) }
    {
        self.journal.reserve(self.living + 1)?;
        self.held.remove(&key);
        self.journal.push_reserved(Entry::Stop {
            host,
            key,
            reply: 0,
        });
        Ok(())
    }

    /// Notes that the next session is given under a key.
    pub(crate) fn give(&mut self, key: Bytes, host: Bytes, port: u16) -> Result<(), Memory>
        requires fit { IsFit self.old (entry.Admit key (reply.Given (next_session self.old) host port)) }
        requires room { is_crowded self.old ≡ false }
        ensures ok { OnOk result (self.new ≡ self.old
            ++ entry.Admit key (reply.Given (next_session self.old) host port) ∷ []) }
        ensures lives { OnOk result (Contains (live self.new) (next_session self.old)) }
        ensures unused { OnOk result (IsNew self.old (next_session self.old)) }
        ensures err { OnErr result (self.new ≡ self.old) }
    {
        let session = self.next_session();
        let at = self.journal.len();
        let again = key.try_clone()?;
        self.journal.reserve(self.living + 2)?;
        self.admissions.reserve(1)?;
        self.under.add(again, session)?;
        self.admissions.push_reserved(at);
        self.journal.push_reserved(Entry::Admit {
            key,
            reply: AdmitReply::Given {
                session,
                host,
                port,
            },
        });
        self.living += 1;
        Ok(())
    }
}

/// The place of a session's admission.
pub(crate) fn place_at(admissions: &[usize], session: u64) -> usize
    requires { (1 ≤ session) × (session - 1 < length admissions.now) }
    ensures { slice_get admissions.now (session - 1) ≡ Some result }
{
    admissions[(session - 1) as usize]
}

/// Takes the session that the entry at a place gave out of those that are live under its key.
pub(crate) fn end_session(journal: &[Entry], under: &mut LiveSessions, at: usize, session: u64)
    requires { at < length journal.now }
    ensures { (key : List ℕ) → admitted_key (slice_get journal.now at) ≡ Some key → (other : List ℕ)
        → sessions_of under.new other ≡ (if bytes_eq key other
        then filter (λ s. not (session == s)) (sessions_of under.old other) else sessions_of under.old other) }
{
    match &journal[at] {
        Entry::Admit { key, .. } => under.remove(key, session),
        Entry::Register { .. } => {}
        Entry::Stop { .. } => {}
        Entry::Dismiss { .. } => {}
    }
}
