//! Steps of a proxy: with which key an engine comes, and what comes on a link that is joined.

ghost use Rattle.dp_proxy.specs.Steps.{HasHost};

use dp_bytes::Bytes;
use dp_proxy::{Act, Effect, Event, Proxy, ProxyError};
use dp_rows::{Memory, put_bytes};
use std::alloc::Global;

/// The number of the link of the engine. That of the IDE that registers is 1.
const ENGINE: u32 = 2;

/// Puts a word and bytes on a line.
fn put_line(text: &mut String, word: &str, bytes: &[u8]) -> Result<(), Memory> {
    text.push_str(word)?;
    put_bytes(text, bytes)?;
    text.push('\n')?;
    Ok(())
}

/// Puts what a step leads to.
fn put_effect(text: &mut String, effect: &Effect) -> Result<(), Memory> {
    match effect {
        Effect::Nothing => put_line(text, "nothing", &[]),
        Effect::Reply(frame) => put_line(text, "reply ", frame.as_slice()),
        Effect::Admitted {
            session,
            host,
            port,
        } => {
            write!(text, "session {session} at port {port} of ")?;
            put_line(text, "", host.as_slice())
        }
        Effect::Turned(_) => put_line(text, "turned away", &[]),
        Effect::ToEngine(commands) => put_line(text, "to the engine ", commands.as_slice()),
        Effect::ToIde(packets) => put_line(text, "to the IDE ", packets.as_slice()),
    }
}

/// What an event leads to, in words.
fn put_step(proxy: &mut Proxy, text: &mut String, act: Act) -> Result<(), Memory>
    requires { HasHost act }
{
    let event = Event { link: ENGINE, act };
    let answer = proxy.step(&event);
    drop(event);
    match answer {
        Ok(effect) => {
            let put = put_effect(text, &effect);
            drop(effect);
            put
        }
        Err(ProxyError::BadInit) => put_line(text, "BadInit", &[]),
        Err(ProxyError::BadFrame { offset }) => {
            writeln!(text, "BadFrame {offset}")?;
            Ok(())
        }
        Err(ProxyError::Memory) => Err(Memory),
    }
}

/// An IDE registers the key `A`.
fn registered(alloc: Global, proxy: &mut Proxy) -> Result<(), Memory> {
    let host = Bytes::from_slice(alloc, b"10.0.0.1")?;
    let command = Bytes::from_slice(alloc, b"proxyinit -p 9000 -k A\0")?;
    let came = Event {
        link: 1,
        act: Act::Ide(host),
    };
    let _ = proxy.step(&came);
    let asked = Event {
        link: 1,
        act: Act::Given(command),
    };
    let _ = proxy.step(&asked);
    Ok(())
}

/// What an engine is answered that comes with this key, where an IDE holds the key `A`.
pub(crate) fn told_engine(alloc: Global, key: &[u8]) -> Result<String, Memory> {
    let mut proxy = Proxy::new(alloc);
    let mut text = String::new(alloc);
    registered(alloc, &mut proxy)?;
    put_step(
        &mut proxy,
        &mut text,
        Act::Engine(Bytes::from_slice(alloc, key)?),
    )?;
    Ok(text)
}

/// What comes of bytes on a link that is joined, of its IDE or of its engine, and then of its closing.
pub(crate) fn told_joined(alloc: Global, of_ide: bool, bytes: &[u8]) -> Result<String, Memory> {
    let mut proxy = Proxy::new(alloc);
    let mut text = String::new(alloc);
    registered(alloc, &mut proxy)?;
    put_step(
        &mut proxy,
        &mut text,
        Act::Engine(Bytes::from_slice(alloc, b"A")?),
    )?;
    let bytes = Bytes::from_slice(alloc, bytes)?;
    if of_ide {
        put_step(&mut proxy, &mut text, Act::Given(bytes))?;
    } else {
        put_step(&mut proxy, &mut text, Act::Moved(bytes))?;
    }
    put_step(&mut proxy, &mut text, Act::Closed)?;
    Ok(text)
}
