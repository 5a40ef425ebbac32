//! Which lines are commands, whatever the state of the session.

ghost use Rattle.std.specs.Prelude.{◌≡◌, None, Some, IfErr, IfOk, IsTrue};
ghost use Rattle.std.specs.List.{list_all, list_any};
ghost use Rattle.dp_command.specs.Names.{name_of};
ghost use Rattle.dp_command.specs.Refusals as spec;

use crate::errors::Refusal;
use crate::line::Line;
use crate::names::CommandName;
use crate::numbers::number_of;
use crate::options::{has_duplicate, is_given, mode_of, option_value};
use crate::slots::{Kind, Presence, Slot, payload_of, slots_of};
use dp_bytes::Bytes;

/// The most bytes of a transaction id.
const ID_LIMIT: usize = 64;

/// The transaction id that a reply to this line repeats: the value of its first `-i` where that is
/// 1 to 64 bytes from 0x21 to 0x7e, and else empty. Takes no memory.
pub fn id_of(line: &Line) -> &[u8]
    ensures { result.now ≡ spec.id_of line.now }
{
    match option_value(line.options.as_slice(), b'i') {
        Some(value) if is_id(value) => value,
        _ => &[],
    }
}

/// Whether a value is a transaction id: 1 to 64 bytes from 0x21 to 0x7e.
fn is_id(value: &[u8]) -> bool
    ensures { result ≡ spec.is_id value.now }
{
    1 <= value.len() && value.len() <= ID_LIMIT && all_visible(value)
}

/// Whether each byte of a value is from 0x21 to 0x7e.
fn all_visible(value: &[u8]) -> bool
    ensures { result ≡ list_all spec.is_visible value.now }
{
    value.iter().all(|b| 0x21 <= *b && *b <= 0x7e)
}

impl CommandName {
    /// The name of the command that a line is, or the first refusal in which the command's row has
    /// no part: a letter that stands twice, an unknown name, and last no transaction id. A session
    /// tests its state next, and then `Command::read` the row. Takes no memory.
    #[tactic(auto, using(crate::proofs::Ids::has_id))]
    pub fn admit(line: &Line) -> Result<CommandName, Refusal>
        ensures refused { IfErr result (λ refusal. spec.admission_refusal line.now ≡ Some refusal) }
        ensures admitted { IfOk result (λ _. spec.admission_refusal line.now ≡ None) }
        ensures named { IfOk result (λ name. name_of line.now.name ≡ Some name) }
        ensures id { IfOk result (λ _. IsTrue (spec.is_id (spec.id_of line.now))) }
    {
        if has_duplicate(line.options.as_slice()) {
            return Err(Refusal::Duplicate);
        }
        let Some(name) = CommandName::of(line.name.as_slice()) else {
            return Err(Refusal::Unimplemented);
        };
        if id_of(line).is_empty() {
            return Err(Refusal::NoId);
        }
        Ok(name)
    }
}

/// Whether the options and the payload are those of the command's row: nothing is missing, nothing
/// stands there that is not in the row, and nothing is malformed. Takes no memory.
#[tactic(auto, unfolding(crate::specs::Refusals::fits_row))]
pub fn fits_row(name: CommandName, line: &Line) -> bool
    ensures { result ≡ spec.fits_row name line.now }
{
    let options = line.options.as_slice();
    let slots = slots_of(name);
    all_accepted(slots, options)
        && all_met(options, slots)
        && takes_payload(payload_of(name), &line.payload)
}

/// Whether each option is `-i` or one that a slot of the row accepts.
fn all_accepted(slots: &[Slot], options: &[(u8, Bytes)]) -> bool
    ensures { result ≡ list_all (spec.is_accepted slots.now) options.now }
{
    for option in options {
        if !is_accepted(slots, option.0, option.1.as_slice()) {
            return false;
        }
    }
    true
}

/// Whether an option is `-i` or one that a slot of the row accepts.
fn is_accepted(slots: &[Slot], letter: u8, value: &[u8]) -> bool
    ensures { result ≡ spec.is_accepted slots.now (letter, value.now) }
{
    letter == b'i' || any_accepts(slots, letter, value)
}

/// Whether a slot of the row accepts the option of this letter and value.
fn any_accepts(slots: &[Slot], letter: u8, value: &[u8]) -> bool
    ensures { result ≡ list_any (spec.accepts (letter, value.now)) slots.now }
{
    for slot in slots {
        if accepts(*slot, letter, value) {
            return true;
        }
    }
    false
}

/// Whether an option has the letter of the slot, and a value of its kind.
fn accepts(slot: Slot, letter: u8, value: &[u8]) -> bool
    ensures { result ≡ spec.accepts (letter, value.now) slot }
{
    match slot {
        Slot::Required(own, kind) | Slot::Optional(own, kind) => {
            letter == own && has_kind(kind, value)
        }
    }
}

/// Whether a value is of this kind: any text, a number, or the mode of a stream.
fn has_kind(kind: Kind, value: &[u8]) -> bool
    ensures { result ≡ spec.has_kind kind value.now }
{
    match kind {
        Kind::Text => true,
        Kind::Number => number_of(value).is_some(),
        Kind::Mode => mode_of(value).is_some(),
    }
}

/// Whether each slot of the row that is required has its option.
fn all_met(options: &[(u8, Bytes)], slots: &[Slot]) -> bool
    ensures { result ≡ list_all (spec.is_met options.now) slots.now }
{
    for slot in slots {
        if !is_met(options, *slot) {
            return false;
        }
    }
    true
}

/// Whether the slot is optional, or an option of its letter is given.
fn is_met(options: &[(u8, Bytes)], slot: Slot) -> bool
    ensures { result ≡ spec.is_met options.now slot }
{
    match slot {
        Slot::Required(letter, _) => is_given(options, letter),
        Slot::Optional(..) => true,
    }
}

/// Whether the payload stands there where it is required, and is missing where there never is one.
fn takes_payload(presence: Presence, payload: &Option<Bytes>) -> bool
    ensures { result ≡ spec.takes_payload presence payload.now }
{
    match presence {
        Presence::Never => payload.is_none(),
        Presence::Optional => true,
        Presence::Required => payload.is_some(),
    }
}
