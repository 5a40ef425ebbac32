//! The live sessions under each key.

ghost use Rattle.std.specs.Prelude.{◌≡◌, ◌==◌, ◌++◌, ◌∷◌, [], not, filter, if◌then◌else◌, bytes_eq, slice_get, length};
ghost use Rattle.std.specs.Prelude.{IfOk, OnOk, OnErr, List, ℕ};
ghost use Rattle.dp_registry.specs.inner.Tables.{sessions_of};

use dp_bytes::{Bytes, Memory};
use indexmap::IndexMap;
use std::alloc::Global;
use std::marker::Model;

/// The live sessions of one key, in the order in which they were given.
#[derive(Debug, Drop)]
pub(crate) struct Sessions {
    numbers: Vec<u64>,
}

impl Model for Sessions {
    ghost use Rattle.std.specs.Prelude.{List, ℕ};

    ghost Value = { List ℕ };

    ghost view = { λ s. s.numbers.items };
}

impl Sessions {
    /// One session alone.
    fn of(alloc: Global, session: u64) -> Result<Sessions, Memory>
        ensures { IfOk result (λ sessions. sessions ≡ session ∷ []) }
    {
        let mut numbers = Vec::new(alloc);
        numbers.push(session)?;
        Ok(Sessions { numbers })
    }

    /// The session that was given first, if any.
    fn first(&self) -> Option<u64>
        ensures { result ≡ slice_get self.now 0 }
    {
        self.numbers.get(0).copied()
    }

    /// Whether there is no session.
    fn is_empty(&self) -> bool
        ensures { result ≡ (length self.now == 0) }
    {
        self.numbers.is_empty()
    }

    /// Adds a session as the last; unchanged where memory runs out.
    fn add(&mut self, session: u64) -> Result<(), Memory>
        ensures ok { OnOk result (self.new ≡ self.old ++ session ∷ []) }
        ensures err { OnErr result (self.new ≡ self.old) }
    {
        self.numbers.push(session)?;
        Ok(())
    }

    /// Takes a session out, if it is there.
    fn remove(&mut self, session: u64)
        ensures { self.new ≡ filter (λ s. not (session == s)) self.old }
    {
        self.numbers.retain(|s| session != *s);
    }
}

/// The live sessions under each key, found by the key's hash.
#[derive(Debug, Drop)]
pub(crate) struct LiveSessions {
    sessions: IndexMap<Bytes, Sessions>,
}

impl Model for LiveSessions {
    ghost use Rattle.std.specs.Prelude.{List, ℕ};

    ghost Value = { List (List ℕ × List ℕ) };

    ghost view = { λ l. l.sessions.entries };
}

impl LiveSessions {
    /// No session kept yet. Takes no memory.
    pub(crate) fn new(alloc: Global) -> LiveSessions
        ensures { result ≡ [] }
    {
        LiveSessions {
            sessions: IndexMap::new(alloc),
        }
    }

    /// The session under a key that was given first.
    pub(crate) fn first(&self, key: &Bytes) -> Option<u64>
        ensures { result ≡ slice_get (sessions_of self.now key.now) 0 }
    {
        self.sessions.get(key)?.first()
    }

    /// Puts a session behind those under its key.
    pub(crate) fn add(&mut self, key: Bytes, session: u64) -> Result<(), Memory>
        ensures ok { OnOk result ((other : List ℕ)
            → sessions_of self.new other ≡ (if bytes_eq key other then sessions_of self.old other ++ session ∷ []
            else sessions_of self.old other)) }
        ensures err { OnErr result (self.new ≡ self.old) }
    {
        if let Some(sessions) = self.sessions.get_mut(&key) {
            return sessions.add(session);
        }
        let alloc = *self.sessions.allocator();
        self.sessions.insert(key, Sessions::of(alloc, session)?)?;
        Ok(())
    }

    /// Takes a session out of those under its key.
    pub(crate) fn remove(&mut self, key: &Bytes, session: u64)
        ensures { (other : List ℕ)
            → sessions_of self.new other ≡ (if bytes_eq key.now other
            then filter (λ s. not (session == s)) (sessions_of self.old other) else sessions_of self.old other) }
    {
        if self.leave(key, session) {
            let _ = self.sessions.swap_remove(key);
        }
    }

    /// Takes a session out, and says whether none is left under the key.
    fn leave(&mut self, key: &Bytes, session: u64) -> bool
        ensures none { result ≡ (length (sessions_of self.new key.now) == 0) }
        ensures left { (other : List ℕ)
            → sessions_of self.new other ≡ (if bytes_eq key.now other
            then filter (λ s. not (session == s)) (sessions_of self.old other) else sessions_of self.old other) }
    {
        let Some(sessions) = self.sessions.get_mut(key) else {
            return true;
        };
        sessions.remove(session);
        sessions.is_empty()
    }
}
