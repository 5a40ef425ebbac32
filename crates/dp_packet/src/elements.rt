//! Elements, put into an output.

ghost use Rattle.std.specs.Prelude.{◌≡◌, [], OnOk};
ghost use Rattle.dp_markup.specs.Outputs.{behind};
ghost use Rattle.dp_markup.specs.Texts.{node_text, written};
ghost use Rattle.dp_packet.specs.Parts.{child, element, rest_text, text_nodes};
ghost use Rattle.dp_packet.specs.inner.Shown.{all_shown, tag_text};

use crate::attributes::{Attribute, put_shown};
use dp_markup::{Output, put_close, put_escaped, put_open};

/// Puts the rest of a start tag behind its name: attributes, and `>`.
pub(crate) fn put_rest<O: Output>(out: &mut O, attributes: &[Attribute]) -> Result<(), O::Error>
    ensures { OnOk result (O.seen out.new ≡ behind (O.seen out.old) (rest_text (all_shown attributes.now))) }
{
    put_shown(out, attributes)?;
    out.put(b">")
}

/// Puts a start tag.
pub(crate) fn put_start<O: Output>(
    out: &mut O,
    name: &[u8],
    attributes: &[Attribute],
) -> Result<(), O::Error>
    ensures { OnOk result (O.seen out.new ≡ behind (O.seen out.old) (tag_text name.now (all_shown attributes.now))) }
{
    put_open(out, name)?;
    put_rest(out, attributes)
}

/// Puts an element with nothing in it.
pub(crate) fn put_empty<O: Output>(
    out: &mut O,
    name: &[u8],
    attributes: &[Attribute],
) -> Result<(), O::Error>
    ensures { OnOk result (O.seen out.new ≡ behind (O.seen out.old)
        (written (element name.now (all_shown attributes.now) []))) }
{
    put_start(out, name, attributes)?;
    put_close(out, name)
}

/// Puts a node that is an element with nothing in it.
pub(crate) fn put_leaf<O: Output>(
    out: &mut O,
    name: &[u8],
    attributes: &[Attribute],
) -> Result<(), O::Error>
    ensures { OnOk result (O.seen out.new ≡ behind (O.seen out.old)
        (node_text (child name.now (all_shown attributes.now) []))) }
{
    put_empty(out, name, attributes)
}

/// Puts an element of this name without attributes, with a text in it.
pub(crate) fn put_words<O: Output>(out: &mut O, name: &[u8], text: &[u8]) -> Result<(), O::Error>
    ensures { OnOk result (O.seen out.new ≡ behind (O.seen out.old)
        (node_text (child name.now [] (text_nodes text.now)))) }
{
    put_start(out, name, &[])?;
    put_escaped(out, text)?;
    put_close(out, name)
}
