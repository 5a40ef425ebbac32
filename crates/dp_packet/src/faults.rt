//! The texts of errors, and why a proxy refuses.
ghost use Rattle.std.specs.Prelude.{◌≡◌, [], ◌∷◌, codes, decimal, OnOk};
ghost use Rattle.dp_markup.specs.Outputs.{behind};
ghost use Rattle.dp_markup.specs.Texts.{node_text};
ghost use Rattle.dp_packet.specs.Messages as spec;
ghost use Rattle.dp_packet.specs.Packets as packets;
ghost use Rattle.dp_packet.specs.Parts.{child};

use crate::attributes::Attribute;
use crate::elements::{put_start, put_words};
use crate::error_codes::message;
use dp_markup::{Output, put_close};

/// Why a proxy refused, empty where the number is none of its reasons.
pub fn reason(id: u8) -> &'static [u8]
    ensures { result.now ≡ spec.reason_of id }
{
    match id {
        1 => b"key is held",
        2 => b"unknown key",
        3 => b"key of another host",
        4 => b"bad command",
        5 => b"registry is full",
        _ => b"",
    }
}

/// Puts the element of an error, or of a refusal, which has a number and a message.
fn put_reported<O: Output>(
    out: &mut O,
    name: &[u8],
    number: u64,
    text: &[u8],
) -> Result<(), O::Error>
    ensures { OnOk result (O.seen out.new ≡ behind (O.seen out.old)
        (node_text (child (codes "error") ((name.now, decimal number) ∷ []) (packets.message_node text.now ∷ [])))) }
{
    put_start(out, b"error", &[Attribute::Number(name, number)])?;
    put_words(out, b"message", text)?;
    put_close(out, b"error")
}

/// Puts the element of an error.
pub(crate) fn put_error<O: Output>(out: &mut O, code: u16) -> Result<(), O::Error>
    ensures { OnOk result (O.seen out.new ≡ behind (O.seen out.old) (node_text (packets.error_node code))) }
{
    put_reported(out, b"code", code as u64, message(code))
}

/// Puts the element of a proxy's refusal.
pub(crate) fn put_refusal<O: Output>(out: &mut O, id: u8) -> Result<(), O::Error>
    ensures { OnOk result (O.seen out.new ≡ behind (O.seen out.old) (node_text (packets.refusal_node id))) }
{
    put_reported(out, b"id", id as u64, reason(id))
}
