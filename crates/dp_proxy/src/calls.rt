//! What an IDE may ask of a proxy.
ghost use Rattle.std.specs.Prelude.{◌≡◌, ◌==◌, ◌&&◌, IfOk, IfSome};
ghost use Rattle.std.specs.List.{list_all, list_any};
ghost use Rattle.std.specs.Option.{option_copied};
ghost use Rattle.dp_proxy.specs.Calls as spec;
ghost use Rattle.dp_proxy.specs.Replies.{IsKeyed};

use dp_bytes::{Bytes, Memory, decimal};
use dp_command::{Line, LineError, has_duplicate, option_value, read_line};
use dp_outside::{KEY_LIMIT, is_name};
use std::alloc::Global;

/// What is asked of the registry, by the host that asks.
#[derive(Debug, Drop)]
pub enum Call {
    Register {
        port: u16,
        key: Bytes,
        multiple: bool,
    },
    Stop {
        key: Bytes,
    },
}

/// Whether bytes are the key of an IDE. Takes no memory.
pub(crate) fn is_key(bytes: &[u8]) -> bool
    ensures { result ≡ spec.is_key bytes.now }
{
    is_name(bytes, KEY_LIMIT)
}

/// Whether a letter is one of these.
fn is_among(letter: u8, letters: &[u8]) -> bool
    ensures { result ≡ list_any (λ l. l == letter) letters.now }
{
    letters.iter().any(|l| *l == letter)
}

/// Whether the letter of each option is one of these.
fn are_among(letters: &[u8], options: &[(u8, Bytes)]) -> bool
    ensures { result ≡ list_all (λ o. list_any (λ letter. letter == o.0) letters.now) options.now }
{
    options.iter().all(|option| is_among(option.0, letters))
}

/// Whether each option has one of these letters, and no letter stands twice.
fn fits(letters: &[u8], options: &[(u8, Bytes)]) -> bool
    ensures { result ≡ spec.fits letters.now options.now }
{
    are_among(letters, options) && !has_duplicate(options)
}

/// The key that is given, if one is.
fn key_in(options: &[(u8, Bytes)]) -> Option<&[u8]>
    ensures { option_copied result ≡ spec.key_in options.now }
{
    let key = option_value(options, b'k')?;
    if is_key(key) { Some(key) } else { None }
}

/// The port that is given, if one is.
fn port_in(options: &[(u8, Bytes)]) -> Option<u16>
    ensures { result ≡ spec.port_in options.now }
{
    let port = decimal(option_value(options, b'p')?, u64::from(u16::MAX))?;
    if port == 0 { None } else { Some(port as u16) }
}

/// Whether several sessions at a time are taken; `None` where the options say it wrongly.
fn multiple_in(options: &[(u8, Bytes)]) -> Option<bool>
    ensures { result ≡ spec.multiple_in options.now }
{
    match option_value(options, b'm') {
        None => Some(false),
        Some(b"0") => Some(false),
        Some(b"1") => Some(true),
        Some(_) => None,
    }
}

/// The call to register that options make; none where the port or the key is not given, or `-m` is wrong.
fn register_in(alloc: Global, options: &[(u8, Bytes)]) -> Result<Option<Call>, Memory>
    ensures { IfOk result (λ call. call ≡ spec.register_in options.now) }
{
    let Some(port) = port_in(options) else {
        return Ok(None);
    };
    let Some(key) = key_in(options) else {
        return Ok(None);
    };
    let Some(multiple) = multiple_in(options) else {
        return Ok(None);
    };
    let key = Bytes::from_slice(alloc, key)?;
    Ok(Some(Call::Register {
        port,
        key,
        multiple,
    }))
}

/// The call to stop that options make; none where no key is given.
fn stop_in(alloc: Global, options: &[(u8, Bytes)]) -> Result<Option<Call>, Memory>
    ensures { IfOk result (λ call. call ≡ spec.stop_in options.now) }
{
    match key_in(options) {
        Some(key) => Ok(Some(Call::Stop {
            key: Bytes::from_slice(alloc, key)?,
        })),
        None => Ok(None),
    }
}

/// The call that a line makes, `proxyinit` or `proxystop` with its own options and no payload; none for any other.
fn call_on(alloc: Global, line: &Line) -> Result<Option<Call>, Memory>
    ensures { IfOk result (λ call. call ≡ spec.call_on line.now) }
{
    let options = line.options.as_slice();
    if line.payload.is_some() {
        Ok(None)
    } else if line.name.as_slice() == b"proxyinit".as_slice() && fits(b"ikmp", options) {
        register_in(alloc, options)
    } else if line.name.as_slice() == b"proxystop".as_slice() && fits(b"ik", options) {
        stop_in(alloc, options)
    } else {
        Ok(None)
    }
}

/// The call that a command names; `None` for every other command.
pub fn call_of(alloc: Global, command: &[u8]) -> Result<Option<Call>, Memory>
    ensures call { IfOk result (λ call. call ≡ spec.call_of command.now) }
    ensures key { IfOk result (λ call. IfSome call IsKeyed) }
{
    match read_line(alloc, command) {
        Ok(line) => call_on(alloc, &line),
        Err(LineError::Parse) => Ok(None),
        Err(LineError::Memory) => Err(Memory),
    }
}

/// Whether a command is a line that asks to stop, be it well formed or not.
pub(crate) fn is_stopping(alloc: Global, command: &[u8]) -> Result<bool, Memory>
    ensures { IfOk result (λ stopping. stopping ≡ spec.is_stopping command.now) }
{
    match read_line(alloc, command) {
        Ok(line) => Ok(line.name.as_slice() == b"proxystop".as_slice()),
        Err(LineError::Parse) => Ok(false),
        Err(LineError::Memory) => Err(Memory),
    }
}
