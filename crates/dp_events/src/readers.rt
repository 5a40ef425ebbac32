//! How far a list is read.
ghost use Rattle.std.specs.Prelude.{◌≡◌, ◌∷◌, [], ◌++◌, true, false, Ok, IfOk, OnOk};
ghost use Rattle.dp_grammar.specs.Lines.{is_idle};
ghost use Rattle.dp_events.specs.Lists.{Fits, MayFollow};
ghost use Rattle.dp_events.specs.inner.Progress.{IsReading, IsTable, Marks, Takes};

use crate::event::{Act, Event};
use crate::events::Events;
use crate::spelling::spelled;
use dp_bytes::Memory;
use indexmap::IndexMap;
use std::alloc::Global;

/// The events of the lines that were read.
///
/// Beside them it keeps, for each link that was made, whether an engine came on it: no line searches those before it.
#[derive(Debug, Drop)]
pub(crate) struct Reading {
    events: Vec<Event>,
    made: IndexMap<u32, bool>,
}

/// Whether a line does nothing: it is empty, or begins with `#`.
fn is_idle_line(line: &[u8]) -> bool
    ensures { result ≡ is_idle line.now }
{
    match line.first() {
        None => true,
        Some(first) => *first == b'#',
    }
}

/// Notes a link that an event makes.
fn mark(made: &mut IndexMap<u32, bool>, link: u32, act: &Act) -> Result<(), Memory>
    ensures { OnOk result (Marks made.old.entries link act.now made.new.entries) }
{
    match act {
        Act::Ide(_) => {
            made.insert(link, false)?;
        }
        Act::Engine(_) => {
            made.insert(link, true)?;
        }
        Act::Give(_) | Act::Move(_) | Act::Close => {}
    }
    Ok(())
}

impl Reading {
    /// Nothing read yet. Takes no memory.
    pub(crate) fn new(alloc: Global) -> Reading
        ensures { IsReading result [] }
    {
        Reading {
            events: Vec::new(alloc),
            made: IndexMap::new(alloc),
        }
    }

    /// The list of what was read.
    pub(crate) fn done(self) -> Events
        requires { IsReading self self.events.items }
        ensures { result ≡ self.events.items }
    {
        Events {
            events: self.events,
        }
    }

    /// Whether an event on this link may follow.
    fn may_follow(&self, link: u32, act: &Act) -> bool
        requires { IsTable self.now.made.entries self.now.events.items }
        ensures yes { result ≡ true → MayFollow self.now.events.items link act.now }
        ensures no { result ≡ false → MayFollow self.now.events.items link act.now → ⊥ }
    {
        let made = self.made.get(&link).copied();
        match act {
            Act::Ide(_) => made.is_none(),
            Act::Engine(_) => made.is_none(),
            Act::Give(_) => made.is_some(),
            Act::Move(_) => made.unwrap_or(false),
            Act::Close => made.is_some(),
        }
    }

    /// Takes an event behind the others.
    fn note(&mut self, event: Event) -> Result<(), Memory>
        requires reads { IsReading self.old self.old.events.items }
        requires fits { Fits self.old.events.items event }
        ensures { OnOk result (IsReading self.new (self.old.events.items ++ event ∷ [])) }
    {
        mark(&mut self.made, event.link, &event.act)?;
        self.events.push(event)?;
        Ok(())
    }

    /// Takes a line, and answers whether it adds to the events before it.
    pub(crate) fn take(&mut self, alloc: Global, line: &[u8]) -> Result<bool, Memory>
        requires { IsReading self.old self.old.events.items }
        ensures takes { IfOk result (λ taken. Takes self.old.events.items line.now taken self.new.events.items) }
        ensures reads { result ≡ Ok true → IsReading self.new self.new.events.items }
    {
        if is_idle_line(line) {
            return Ok(true);
        }
        let Some(event) = spelled(alloc, line)? else {
            return Ok(false);
        };
        if !self.may_follow(event.link, &event.act) {
            return Ok(false);
        }
        self.note(event)?;
        Ok(true)
    }
}
