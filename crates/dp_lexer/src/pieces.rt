//! The next piece of a text.

ghost use Rattle.dp_lexer.specs.inner.Lexer as spec;
ghost use Rattle.dp_lexer.specs.inner.Lexer.{Finds};

use crate::class::{Class, class_of};
use crate::comments::{behind_hash, behind_slash};
use crate::fault::{Fault, Wrong};
use crate::names::{name, variable};
use crate::numbers::number;
use crate::operators::operator;
use crate::quotes::text;
use crate::token::TokenKind;
use std::alloc::Global;

/// The piece that comes next, if it is a token its kind, and its length.
#[tactic(auto, unfolding(crate::specs::inner::Lexer::piece_at))]
pub(crate) fn piece(alloc: Global, z: &[u8]) -> Result<(Option<TokenKind>, usize), Wrong>
    ensures { Finds (spec.piece_at z.now) result }
{
    let [b, rest @ ..] = z else {
        return Err(Wrong::Fault(Fault::BadByte, 0));
    };
    match class_of(*b) {
        Class::Name => name(alloc, z),
        Class::Number => number(z),
        Class::Space => Ok((None, 1)),
        Class::Hash => behind_hash(rest),
        Class::Slash => behind_slash(rest),
        Class::Dollar => variable(alloc, rest),
        Class::Quote => text(alloc, *b, rest),
        Class::Other => operator(*b, rest),
    }
}
