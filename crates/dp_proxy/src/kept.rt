//! What is kept of each link.
ghost use Rattle.std.specs.Prelude.{◌≡◌, [], ℕ, if◌then◌else◌, ◌==◌, ◌&&◌, Some, None, OnOk, OnErr, is_some};
ghost use Rattle.dp_proxy.specs.Invariant.{kept_at};
ghost use Rattle.dp_proxy.specs.declared.kept.Kept.TheVariants as keep;

use crate::errors::ProxyError;
use crate::events::Effect;
use dp_bytes::{Bytes, Memory};
use dp_lanes::Lane;
use dp_registry::Pass;
use indexmap::IndexMap;
use std::alloc::Global;
use std::marker::Model;

/// What is kept of a link that was made.
#[derive(Debug, Drop)]
pub(crate) enum Kept {
    /// An IDE that has sent these bytes, none of them NUL.
    Asking { host: Bytes, heard: Vec<u8> },
    /// An engine with a session, and its lanes.
    Joined { pass: Pass, up: Lane, down: Lane },
    /// It was answered or refused, or is closed.
    Over,
}

/// What is kept of a link after an event, and what the event is answered.
#[derive(Debug, Drop)]
pub(crate) struct Step {
    pub(crate) kept: Option<Kept>,
    pub(crate) answer: Result<Effect, ProxyError>,
}

/// What is kept of each link that was made, found by the link's hash.
#[derive(Debug, Drop)]
pub(crate) struct Links {
    links: IndexMap<u32, Kept>,
}

impl Model for Links {
    ghost use Rattle.std.specs.Prelude.{List, ℕ};
    ghost use Rattle.dp_proxy.specs.declared.kept.Kept.{Kept as OneKept};

    ghost Value = { List (ℕ × OneKept) };

    ghost view = { λ l. l.links.entries };
}

impl Links {
    /// Nothing kept yet. Takes no memory.
    pub(crate) fn new(alloc: Global) -> Links
        ensures { result ≡ [] }
    {
        Links {
            links: IndexMap::new(alloc),
        }
    }

    /// Takes out what is kept of a link, if it was made; it counts as over until something is put there.
    pub(crate) fn take(&mut self, link: u32) -> Option<Kept>
        ensures kept { result ≡ kept_at self.old link }
        ensures left { (other : ℕ) → kept_at self.new other
            ≡ (if link == other then (if is_some result then Some keep.Over else None) else kept_at self.old other) }
    {
        let Some(kept) = self.links.get_mut(&link) else {
            return None;
        };
        Some(std::mem::replace(kept, Kept::Over))
    }

    /// Puts what is kept of a link, if something is, in the stead of what is there.
    pub(crate) fn put(&mut self, link: u32, kept: Option<Kept>) -> Result<(), Memory>
        ensures ok { OnOk result ((other : ℕ) → kept_at self.new other
            ≡ (if (link == other) && is_some kept then kept else kept_at self.old other)) }
        ensures err { OnErr result (self.new ≡ self.old) }
    {
        if let Some(kept) = kept {
            self.links.insert(link, kept)?;
        }
        Ok(())
    }
}
