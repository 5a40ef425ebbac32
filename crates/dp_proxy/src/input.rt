//! What an IDE asks, in whatever pieces it comes.
ghost use Rattle.std.specs.Prelude.{◌≡◌, true, IfOk};
ghost use Rattle.dp_wire.specs.Frames.{has_no_nul};
ghost use Rattle.dp_proxy.specs.declared.events.Act.TheVariants as acted;
ghost use Rattle.dp_proxy.specs.inner.Acts.{Hears};

use crate::events::Act;
use dp_bytes::Memory;
use dp_wire::first_nul;

/// Whether a command is asked with an act.
#[derive(Clone, Copy, Debug)]
pub(crate) enum Hearing {
    /// More of it has to come.
    More,
    /// The link has closed before a byte came.
    Silence,
    /// It is; what was heard is the command.
    Asked,
}

/// Bytes come behind those that were heard, none of which is NUL.
fn take_in(heard: &mut Vec<u8>, bytes: &[u8]) -> Result<Hearing, Memory>
    ensures { has_no_nul heard.old.items ≡ true → IfOk result (λ hearing.
        Hears heard.old.items (acted.Given bytes.now) hearing heard.new.items) }
{
    match first_nul(bytes) {
        None => {
            heard.extend_from_slice(bytes)?;
            Ok(Hearing::More)
        }
        Some(place) => {
            heard.extend_from_slice(&bytes[..place])?;
            Ok(Hearing::Asked)
        }
    }
}

/// An act on the link of an IDE of which so much was heard. A byte is looked at once.
pub(crate) fn hear(heard: &mut Vec<u8>, act: &Act) -> Result<Hearing, Memory>
    ensures { has_no_nul heard.old.items ≡ true → IfOk result (λ hearing.
        Hears heard.old.items act.now hearing heard.new.items) }
{
    match act {
        Act::Given(bytes) => take_in(heard, bytes.as_slice()),
        Act::Closed if heard.is_empty() => Ok(Hearing::Silence),
        Act::Closed => Ok(Hearing::Asked),
        Act::Ide(_) => Ok(Hearing::More),
        Act::Engine(_) => Ok(Hearing::More),
        Act::Moved(_) => Ok(Hearing::More),
    }
}
