//! A dialer whose twins have its links.
ghost use Rattle.std.specs.Prelude.{◌≡◌, None};

use crate::links::{Links, SeenSink, StagedSource};
use dp_outside::{Dialer, Failed, Faults, Host};
use std::sync::atomic::AtomicUsize;
use std::sync::atomic::Ordering::SeqCst;

/// A dialer that gives its links, and counts those that come back. Each twin is given one of them. It fails where none
/// is left.
#[derive(Drop)]
pub struct PairDialer<'a> {
    links: Links<'a>,
    retired: &'a AtomicUsize,
    faults: Faults,
}

impl<'a> PairDialer<'a> {
    /// A dialer of these links, which has not failed yet.
    pub fn new(links: Links<'a>, retired: &'a AtomicUsize) -> Self
        ensures { result.faults ≡ 0 }
    {
        PairDialer {
            links,
            retired,
            faults: Faults::new(),
        }
    }
}

impl<'a> Dialer for PairDialer<'a> {
    type In = StagedSource<'a>;

    type Out = SeenSink<'a>;

    ghost faults = { λ dialer. dialer.faults };

    ghost returned = { λ _. 0 };

    ghost dials = { λ _. None };

    ghost retired = { λ _. None };

    ghost asked_gates = { λ _. None };

    ghost shut_doors = { λ _. None };

    fn dial(
        &mut self,
        _host: &Host,
        _port: u16,
    ) -> Result<(StagedSource<'a>, SeenSink<'a>), Failed> {
        match self.links.next() {
            Some(link) => Ok(link),
            None => {
                self.faults.raise();
                Err(Failed)
            }
        }
    }

    fn retire(&mut self, _source: StagedSource<'a>, _sink: SeenSink<'a>) {
        self.retired.fetch_add(1, SeqCst);
    }

    fn twin(&mut self) -> Result<Self, Failed> {
        let links = Links {
            near: self.links.next(),
            far: None,
        };
        Ok(Self::new(links, self.retired))
    }
}
