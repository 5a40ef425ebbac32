//! The text of a message.

ghost use Rattle.std.specs.Prelude.{◌≡◌, ◌≤◌, false, Some, IfOk};
ghost use Rattle.json.specs.Lex.{tokens};
ghost use Rattle.json.specs.Print.{print};
ghost use Rattle.serde_json.specs.Data.{depth};
ghost use Rattle.serde_json.specs.Read.{read, max_depth};
ghost use Rattle.serde_json.specs.View.{view};
ghost use Rattle.serde_json.specs.Written.{has_float, compact_text, IsInOrder};

use dp_bytes::{Bytes, Memory};
use serde_json::Value;
use std::alloc::Global;

/// The text of a message, without a space: the members of an object stand in ascending order of their names.
pub fn message_text(alloc: Global, message: &Value) -> Result<Bytes, Memory>
    ensures text { IfOk result (λ text. has_float (view message.now) ≡ false
        → text ≡ compact_text (view message.now)) }

    // No clause says the digits of a float; they are read back as it.
    ensures compact { IfOk result (λ text. text ≡ print (tokens text)) }
    ensures order { IfOk result (λ text. IsInOrder text (view message.now)) }
    ensures reads_back { IfOk result (λ text. depth (view message.now) ≤ max_depth
        → read text ≡ Some (view message.now)) }
{
    let text = message.to_vec(alloc)?;
    Ok(Bytes::of(text))
}
