//! Large lists of events, drawn by a generator.
ghost use Rattle.std.specs.Prelude.{◌≡◌, ◌*◌, ◌<◌, ◌≤◌, [], ◌∷◌, ◌++◌, decimal, IfOk, OnOk};
ghost use Rattle.dp_events.specs.Soak as spec;

use crate::event::{Act, Event};
use crate::events::Events;
use dp_bytes::{Bytes, Memory};
use std::alloc::Global;

/// The largest count of a `move`: all that an engine has sent.
const ALL: u32 = u32::MAX;

/// A linear congruential generator of 64 bits.
#[derive(Clone, Copy)]
struct Generator {
    state: u64,
}

impl Generator {
    /// A number below this one.
    #[tactic(auto, unfolding(crate::specs::Soak::next_state, crate::specs::Soak::drawn))]
    fn draw(&mut self, below: u64) -> u64
        requires { 0 < below }
        ensures value { result ≡ spec.drawn below self.old.state }
        ensures below { result < below }
        ensures state { self.new.state ≡ spec.next_state self.old.state }
    {
        let state = u128::from(self.state) * 6_364_136_223_846_793_005 + 1_442_695_040_888_963_407;
        self.state = (state % (1 << 64)) as u64;
        (self.state >> 33) % below
    }
}

/// Puts an event behind the others.
fn put(events: &mut Vec<Event>, link: u32, act: Act) -> Result<(), Memory>
    ensures { OnOk result (events.new.items ≡ events.old.items ++ spec.on link act ∷ []) }
{
    events.push(Event { link, act })?;
    Ok(())
}

/// The digit of a number below ten.
fn digit(number: u8) -> u8
    requires { number < 10 }
    ensures { result ∷ [] ≡ decimal number }
{
    b'0' + number
}

/// A text and a number below ten.
fn numbered(alloc: Global, text: &[u8], number: u8) -> Result<Vec<u8>, Memory>
    requires { number < 10 }
    ensures { IfOk result (λ bytes. bytes.items ≡ text.now ++ decimal number) }
{
    let mut bytes = Vec::from_slice(alloc, text)?;
    bytes.push(digit(number))?;
    Ok(bytes)
}

/// An IDE connects, and asks for its key.
fn put_registration(alloc: Global, events: &mut Vec<Event>, number: u8) -> Result<(), Memory>
    requires { number < 10 }
    ensures { OnOk result (events.new.items ≡ events.old.items ++ spec.registration number) }
{
    let link = u32::from(number);
    let host = numbered(alloc, b"10.0.0.", number)?;
    let mut command = numbered(alloc, b"proxyinit -p 9000 -k K", number)?;
    command.extend_from_slice(b" -m 1\0")?;
    put(events, link, Act::Ide(Bytes::of(host)))?;
    put(events, link, Act::Give(Bytes::of(command)))
}

/// The name of a command, for a number below four.
fn command_name(number: u64) -> &'static [u8]
    ensures { result.now ≡ spec.command_name number }
{
    match number {
        0 => b"step_into",
        1 => b"stack_get",
        2 => b"context_get",
        _ => b"run",
    }
}

/// The next command, with its NUL.
fn next_command(alloc: Global, number: u8, generator: &mut Generator) -> Result<Vec<u8>, Memory>
    requires { number < 10 }
    ensures command { IfOk result (λ bytes. bytes.items ≡ spec.command generator.old.state number) }
    ensures state { generator.new.state ≡ spec.next_state generator.old.state }
{
    let mut command = Vec::from_slice(alloc, command_name(generator.draw(4)))?;
    command.extend_from_slice(b" -i ")?;
    command.push(digit(number))?;
    command.push(0)?;
    Ok(command)
}

/// Puts the next command, given in two pieces.
fn put_command(
    alloc: Global,
    events: &mut Vec<Event>,
    link: u32,
    number: u8,
    generator: &mut Generator,
) -> Result<(), Memory>
    requires { number < 10 }
    ensures events { OnOk result (events.new.items
        ≡ events.old.items ++ spec.given_command link number generator.old.state) }
    ensures state { OnOk result (generator.new.state ≡ spec.state_after 2 generator.old.state) }
{
    let command = next_command(alloc, number, generator)?;
    let cut = generator.draw(command.len() as u64 + 1) as usize;
    let first = Bytes::from_slice(alloc, &command[..cut])?;
    let second = Bytes::from_slice(alloc, &command[cut..])?;
    put(events, link, Act::Give(first))?;
    put(events, link, Act::Give(second))
}

/// Puts so many commands, of which the first has the number 1.
fn put_commands(
    alloc: Global,
    events: &mut Vec<Event>,
    link: u32,
    count: u8,
    generator: &mut Generator,
) -> Result<(), Memory>
    requires { count < 9 }
    ensures events { OnOk result (events.new.items
        ≡ events.old.items ++ spec.commands link count 1 generator.old.state) }
    ensures state { OnOk result (generator.new.state ≡ spec.state_after (2 * count) generator.old.state) }
{
    let mut number = 1u8;
    let mut left = count;
    'commands: while left > 0 {
        put_command(alloc, events, link, number, generator)?;
        number += 1;
        left -= 1;
    }
    Ok(())
}

/// Puts the last reads of an engine, and the closing.
fn put_last_reads(
    events: &mut Vec<Event>,
    link: u32,
    generator: &mut Generator,
) -> Result<(), Memory>
    ensures events { OnOk result (events.new.items
        ≡ events.old.items ++ spec.last_reads link generator.old.state) }
    ensures state { OnOk result (generator.new.state ≡ spec.next_state generator.old.state) }
{
    let most = generator.draw(4_000) as u32 + 1;
    put(events, link, Act::Move(most))?;
    put(events, link, Act::Move(ALL))?;
    put(events, link, Act::Close)
}

/// Puts what happens on the link of one engine.
fn put_session(
    alloc: Global,
    events: &mut Vec<Event>,
    link: u32,
    generator: &mut Generator,
) -> Result<(), Memory>
    ensures events { OnOk result (events.new.items ≡ events.old.items ++ spec.session link generator.old.state) }
    ensures state { OnOk result (generator.new.state ≡ spec.behind_session generator.old.state) }
{
    let key = numbered(alloc, b"K", generator.draw(9) as u8 + 1)?;
    put(events, link, Act::Engine(Bytes::of(key)))?;
    let count = generator.draw(4) as u8;
    put_commands(alloc, events, link, count, generator)?;
    put_last_reads(events, link, generator)
}

/// Puts so many engines, of which the first comes on link 9.
fn put_sessions(alloc: Global, events: &mut Vec<Event>, count: u32, seed: u64) -> Result<(), Memory>
    requires { count ≤ spec.soak_limit }
    ensures { OnOk result (events.new.items ≡ events.old.items ++ spec.sessions 9 count seed) }
{
    let mut generator = Generator { state: seed };
    let mut link = 9u32;
    let mut left = count;
    'sessions: while left > 0 {
        put_session(alloc, events, link, &mut generator)?;
        link += 1;
        left -= 1;
    }
    Ok(())
}

/// Puts the eight IDEs.
fn put_registrations(alloc: Global, events: &mut Vec<Event>) -> Result<(), Memory>
    ensures { OnOk result (events.new.items ≡ events.old.items ++ spec.registrations 1 8) }
{
    let mut number = 1u8;
    let mut left = 8u8;
    'ides: while left > 0 {
        put_registration(alloc, events, number)?;
        number += 1;
        left -= 1;
    }
    Ok(())
}

/// The list that a generator draws from this seed: eight IDEs, and so many engines, from 1 to 10,000.
pub fn soak_events(alloc: Global, count: u32, seed: u64) -> Result<Events, Memory>
    requires some { 1 ≤ count }
    requires most { count ≤ spec.soak_limit }
    ensures { IfOk result (λ events. events ≡ spec.soak count seed) }
{
    let mut events = Vec::new(alloc);
    put_registrations(alloc, &mut events)?;
    put_sessions(alloc, &mut events, count, seed)?;
    Ok(Events { events })
}
