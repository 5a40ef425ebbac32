//! The registry and its calls.

use crate::entries::{end_session, place_at};
use crate::entry::Entry;
use crate::pass::Pass;
use crate::places::Places;
use crate::refusal::Refusal;
use crate::sessions::LiveSessions;
use dp_bytes::Bytes;
use std::alloc::Global;
use std::marker::Model;

/// Which IDE holds which key, and which sessions are live. Contracts see the journal of all calls.
///
/// Beside the journal it keeps the places of the registrations that hold and the live sessions by
/// keys, and the place of each session's admission, so no call searches the journal.
#[derive(Debug, Drop)]
pub struct Registry {
    pub(crate) journal: Vec<Entry>,
    pub(crate) held: Places,
    pub(crate) under: LiveSessions,
    pub(crate) admissions: Vec<usize>,
    pub(crate) living: usize,
}

impl Model for Registry {
    ghost use Rattle.std.specs.Prelude.{List, ◌+◌, ◌≤◌, vec_len, vec_capacity};
    ghost use Rattle.dp_registry.specs.declared.entry.Entry.{Entry};
    ghost use Rattle.dp_registry.specs.inner.Kept.{IsKept};

    ghost Value = { List Entry };

    ghost view = { λ r. r.journal.items };

    ghost invariant = { λ r. IsKept r.journal.items r.held r.under r.admissions.items r.living
        × (vec_len r.journal + r.living ≤ vec_capacity r.journal) };
}

impl Registry {
    ghost use Rattle.std.specs.Prelude.{◌≡◌, ◌++◌, ◌∷◌, [], Contains, IfOk};
    ghost use Rattle.dp_registry.specs.declared.entry.Entry.TheVariants as entry;
    ghost use Rattle.dp_registry.specs.Journal.{IsNew, live};
    ghost use Rattle.dp_registry.specs.Legal.{IsLegal};
    ghost use Rattle.dp_outside.specs.Names.{IsHost, IsKey};
    ghost use Rattle.dp_registry.specs.Verdicts.{register_verdict, stop_verdict, admit_verdict, reply_of};
    ghost use Rattle.dp_registry.specs.Verdicts.{admit_reply_of, noted, IsAnswer};

    /// The registry before any call. Takes no memory.
    #[tactic(auto, using(crate::proofs::JournalLaws::kept_new))]
    pub fn new(alloc: Global) -> Registry
        ensures { result ≡ [] }
    {
        Registry {
            journal: Vec::new(alloc),
            held: Places::new(alloc),
            under: LiveSessions::new(alloc),
            admissions: Vec::new(alloc),
            living: 0,
        }
    }

    /// All calls with their replies, but those answered `Full` or `Memory`. Takes no memory.
    pub fn journal(&self) -> &[Entry]
        ensures journal { result.now ≡ self.now }
        ensures legal { IsLegal self.now }
    {
        self.journal.as_slice()
    }

    /// Registers a key for an IDE that is reached at the host and the port.
    ///
    /// `Full` is tried first, and comes exactly where no entry has room. `Taken` comes exactly where
    /// another host or another port holds the key; it names them. The holder itself may register again,
    /// which replaces `multiple`. `Full` and `Memory` change nothing; `Taken` is noted.
    pub fn register(
        &mut self,
        host: &[u8],
        port: u16,
        key: &[u8],
        multiple: bool,
    ) -> Result<(), Refusal>
        requires host { IsHost host.now }
        requires key { IsKey key.now }
        ensures verdict { IsAnswer (register_verdict self.old host.now port key.now) result }
        ensures journal { self.new ≡ noted self.old (λ reply. entry.Register host.now port key.now multiple reply)
            (reply_of result) }
    {
        if self.is_full() {
            return Err(self.full());
        }
        let host = Bytes::from_slice(self.allocator(), host)?;
        let key = Bytes::from_slice(self.allocator(), key)?;
        self.register_owned(host, port, key, multiple)
    }

    /// Stops the registration of a key.
    ///
    /// `Full` is tried first, and comes exactly where no entry has room. `Unknown` comes exactly where
    /// nobody holds the key, `NotYours` exactly where another host does. `Full` and `Memory` change
    /// nothing; the others are noted.
    pub fn stop(&mut self, host: &[u8], key: &[u8]) -> Result<(), Refusal>
        requires host { IsHost host.now }
        requires key { IsKey key.now }
        ensures verdict { IsAnswer (stop_verdict self.old host.now key.now) result }
        ensures journal { self.new ≡ noted self.old (λ reply. entry.Stop host.now key.now reply) (reply_of result) }
    {
        if self.is_full() {
            return Err(self.full());
        }
        let host = Bytes::from_slice(self.allocator(), host)?;
        let key = Bytes::from_slice(self.allocator(), key)?;
        self.stop_owned(host, key)
    }

    /// Gives an engine the next session under a key.
    ///
    /// `Full` is tried first, and comes exactly where the two entries of a session have no room, or 256
    /// sessions are live. `Unknown` comes exactly where nobody holds the key, `Busy` exactly where the
    /// registration takes one session at a time and one is live under the key; it names the least.
    /// `Full` and `Memory` change nothing; the others are noted. A pass names the host of the IDE.
    pub fn admit(&mut self, key: &[u8]) -> Result<Pass, Refusal>
        requires key { IsKey key.now }
        ensures verdict { IsAnswer (admit_verdict self.old key.now) result }
        ensures journal { self.new ≡ noted self.old (λ reply. entry.Admit key.now reply) (admit_reply_of result) }
        ensures lives { IfOk result (λ pass. Contains (live self.new) pass.session) }
        ensures unused { IfOk result (λ pass. IsNew self.old pass.session) }
        ensures reached { IfOk result (λ pass. IsHost pass.host) }
    {
        if self.is_crowded() {
            return Err(self.full());
        }
        let key = Bytes::from_slice(self.allocator(), key)?;
        self.admit_owned(key)
    }

    /// Ends a live session. Takes no memory.
    pub fn dismiss(&mut self, pass: Pass)
        requires { Contains (live self.old) pass.session }
        ensures { self.new ≡ self.old ++ entry.Dismiss pass.session ∷ [] }
    {
        let at = place_at(self.admissions.as_slice(), pass.session);
        end_session(self.journal.as_slice(), &mut self.under, at, pass.session);
        self.living -= 1;
        self.journal.push_reserved(Entry::Dismiss {
            session: pass.session,
        });
    }
}
