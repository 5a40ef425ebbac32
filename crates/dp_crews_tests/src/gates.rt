//! A gate whose links come once some sink has taken enough.
ghost use Rattle.std.specs.Prelude.{◌≡◌, None};

use crate::links::{Links, SeenSink, StagedSource, has_taken};
use dp_outside::{Failed, Faults, Gate, Host};
use std::sync::atomic::AtomicUsize;
use std::sync::atomic::Ordering::SeqCst;

/// A gate that gives its links once some sink has taken so many bytes, and counts those that come back. Each twin is
/// given one of them. It fails where none is left, and where it waits in vain.
#[derive(Drop)]
pub struct PairGate<'a> {
    links: Links<'a>,
    after: usize,
    seen: &'a AtomicUsize,
    retired: &'a AtomicUsize,
    faults: Faults,
}

impl<'a> PairGate<'a> {
    /// A gate of these links, which has not failed yet.
    pub fn new(
        links: Links<'a>,
        after: usize,
        seen: &'a AtomicUsize,
        retired: &'a AtomicUsize,
    ) -> Self
        ensures { result.faults ≡ 0 }
    {
        PairGate {
            links,
            after,
            seen,
            retired,
            faults: Faults::new(),
        }
    }
}

impl<'a> Gate for PairGate<'a> {
    type In = StagedSource<'a>;

    type Out = SeenSink<'a>;

    ghost faults = { λ gate. gate.faults };

    ghost returned = { λ _. 0 };

    ghost port = { λ _. 9000 };

    ghost accepts = { λ _. None };

    ghost accepted = { λ _. None };

    ghost retired = { λ _. None };

    fn accept(&mut self) -> Result<(StagedSource<'a>, SeenSink<'a>, Host), Failed> {
        if has_taken(self.seen, self.after) {
            let host = Host::of(b"10.0.0.1");
            if let (Some((source, sink)), Some(host)) = (self.links.next(), host) {
                return Ok((source, sink, host));
            }
        }
        self.faults.raise();
        Err(Failed)
    }

    fn retire(&mut self, _source: StagedSource<'a>, _sink: SeenSink<'a>) {
        self.retired.fetch_add(1, SeqCst);
    }

    fn twin(&mut self) -> Result<Self, Failed> {
        let links = Links {
            near: self.links.next(),
            far: None,
        };
        Ok(Self::new(links, self.after, self.seen, self.retired))
    }
}
