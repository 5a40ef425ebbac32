//! Calls of a registry that is full of live sessions.

ghost use Rattle.std.specs.Prelude.{◌≡◌, ℕ, true, Contains};
ghost use Rattle.dp_registry.specs.Journal.{live};
ghost use Rattle.dp_registry.specs.declared.refusal.Refusal.TheVariants as refusal;

use dp_registry::{Pass, Refusal, Registry};
use dp_rows::{Memory, number_of};
use std::alloc::Global;

/// Puts the session that an engine is given.
fn put_session(text: &mut String, session: u64) -> Result<(), Memory> {
    writeln!(text, "session {session}")?;
    Ok(())
}

/// Puts why an engine is refused.
fn put_refusal(text: &mut String, why: &Refusal) -> Result<(), Memory> {
    match why {
        Refusal::Full { events, live } => {
            writeln!(text, "full: {events} entries, {live} live sessions")?;
            Ok(())
        }
        Refusal::Memory => Err(Memory),
        _ => {
            text.push_str("refused\n")?;
            Ok(())
        }
    }
}

/// Asks for so many sessions under the key `A`.
fn admit_all(registry: &mut Registry, count: u64) {
    for _ in 0..count {
        let _ = registry.admit(b"A".as_slice());
    }
}

/// Asks for a session.
fn admit_one(registry: &mut Registry, text: &mut String) -> Result<(), Memory> {
    match registry.admit(b"A".as_slice()) {
        Ok(pass) => put_session(text, pass.session),
        Err(why) => put_refusal(text, &why),
    }
}

/// Asks for another session. Where there is none, the one that is given ends, and another is asked for again.
fn admit_behind(registry: &mut Registry, pass: Pass, text: &mut String) -> Result<(), Memory>
    requires { Contains (live registry.old) pass.session }
{
    match registry.admit(b"A".as_slice()) {
        Ok(other) => put_session(text, other.session),
        Err(why) => {
            let full = is_full(&why);
            let put = put_refusal(text, &why);
            drop(why);
            if full {
                registry.dismiss(pass);
                put?;
                admit_one(registry, text)
            } else {
                put
            }
        }
    }
}

/// Whether a refusal is for want of room.
fn is_full(why: &Refusal) -> bool
    ensures { result ≡ true → (events : ℕ) × (sessions : ℕ) × (why.now ≡ refusal.Full events sessions) }
{
    match why {
        Refusal::Full { events: _, live: _ } => true,
        _ => false,
    }
}

/// Asks for two sessions, and for another where the registry is full then and the former of the two has ended.
fn admit_three(registry: &mut Registry, text: &mut String) -> Result<(), Memory> {
    match registry.admit(b"A".as_slice()) {
        Ok(pass) => {
            put_session(text, pass.session)?;
            admit_behind(registry, pass, text)
        }
        Err(why) => put_refusal(text, &why),
    }
}

/// What engines are answered that come once so many sessions are live under one key, and how many entries
/// there are then.
pub(crate) fn told_full(alloc: Global, input: &[u8]) -> Result<String, Memory> {
    let mut registry = Registry::new(alloc);
    let mut text = String::new(alloc);
    let host = b"10.0.0.1".as_slice();
    if registry
        .register(host, 9000, b"A".as_slice(), true)
        .is_err()
    {
        return Err(Memory);
    }
    admit_all(&mut registry, number_of(input).unwrap_or(0));
    admit_three(&mut registry, &mut text)?;
    let entries = registry.journal().len();
    writeln!(text, "{entries} entries")?;
    Ok(text)
}
