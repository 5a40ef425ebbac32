//! What a registry knows without a change.

use crate::entry::{AdmitReply, Entry};
use crate::refusal::Refusal;
use crate::registry::Registry;
use dp_bytes::{Bytes, Memory};
use std::alloc::Global;

/// The most entries that there may be, once each live session was dismissed.
const MOST_ENTRIES: usize = 262_144;

/// The most live sessions.
const MOST_LIVE: usize = 256;

impl Registry {
    ghost use Rattle.std.specs.Prelude.{◌≡◌, option_map, IfOk, Some};
    ghost use Rattle.dp_registry.specs.Journal.{holder, live_under, next_session, least};
    ghost use Rattle.dp_registry.specs.Legal.{IsLegal};
    ghost use Rattle.dp_registry.specs.Verdicts.{is_full, is_crowded, full, registering, stopping, admitting};
    ghost use Rattle.dp_registry.specs.inner.Answered.{holder_from, registered, stopped, admitted};

    /// The allocator of the journal.
    pub(crate) fn allocator(&self) -> Global {
        *self.journal.allocator()
    }

    /// Whether the journal, with an entry for each dismissal to come, has no room for one entry more.
    pub(crate) fn is_full(&self) -> bool
        ensures { result ≡ is_full self.now }
    {
        self.journal.len() + self.living + 1 > MOST_ENTRIES
    }

    /// Whether no session can be given: as many are live as may be, or the journal has no room for one and its
    /// dismissal.
    pub(crate) fn is_crowded(&self) -> bool
        ensures test { result ≡ is_crowded self.now }
        ensures legal { IsLegal self.now }
    {
        self.journal.len() + self.living + 2 > MOST_ENTRIES || self.living == MOST_LIVE
    }

    /// The refusal of a full registry, with how many entries and live sessions it has.
    pub(crate) fn full(&self) -> Refusal
        ensures { result ≡ full self.now }
    {
        Refusal::Full {
            events: self.journal.len() as u64,
            live: self.living as u64,
        }
    }

    /// Who holds a key: the host, the port, and whether several sessions are taken.
    pub(crate) fn holder(&self, key: &Bytes) -> Option<(&Bytes, u16, bool)>
        ensures { option_map (λ h. holder_from (h.0.now, h.1, h.2)) result ≡ holder self.now key.now }
    {
        let at = self.held.get(key)?;
        match &self.journal[at] {
            Entry::Register {
                host,
                port,
                multiple,
                ..
            } => Some((host, *port, *multiple)),
            _ => None,
        }
    }

    /// The address that holds a key, where it is another.
    pub(crate) fn taken(
        &self,
        host: &Bytes,
        port: u16,
        key: &Bytes,
    ) -> Result<Option<(Bytes, u16)>, Memory>
        ensures { IfOk result (λ taken. registered taken ≡ registering (holder self.now key.now) host.now port) }
    {
        let Some((holder, its_port, _)) = self.holder(key) else {
            return Ok(None);
        };
        if holder == host && its_port == port {
            return Ok(None);
        }
        Ok(Some((holder.try_clone()?, its_port)))
    }

    /// Whether the host holds the key that is held.
    pub(crate) fn is_holder(&self, host: &Bytes, key: &Bytes) -> Option<bool>
        ensures { stopped result ≡ stopping (holder self.now key.now) host.now }
    {
        let (holder, _, _) = self.holder(key)?;
        Some(holder == host)
    }

    /// The session that keeps others out under a key.
    pub(crate) fn first_live(&self, key: &Bytes) -> Option<u64>
        ensures { result ≡ least (live_under key.now self.now) }
    {
        self.under.first(key)
    }

    /// What an engine that asks under a key is answered.
    pub(crate) fn admission(&self, key: &Bytes) -> Result<AdmitReply, Memory>
        ensures { IfOk result (λ reply. admitted reply ≡ admitting (holder self.now key.now)
            (live_under key.now self.now) (next_session self.now)) }
    {
        let Some((host, port, multiple)) = self.holder(key) else {
            return Ok(AdmitReply::Unknown);
        };
        if !multiple && let Some(session) = self.first_live(key) {
            return Ok(AdmitReply::Busy(session));
        }
        Ok(AdmitReply::Given {
            session: self.next_session(),
            host: host.try_clone()?,
            port,
        })
    }

    /// The number of the session that is given next.
    pub(crate) fn next_session(&self) -> u64
        ensures { result ≡ next_session self.now }
    {
        self.admissions.len() as u64 + 1
    }
}
