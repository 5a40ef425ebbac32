//! Links that come back.
ghost use Rattle.std.specs.Prelude.{◌↔◌, ◌+◌, ◌<◌, IsTrue};

use dp_outside::{ByteSink, ByteSource};

/// Whether a link that came back had failed.
pub(crate) fn have_failed(source: &ByteSource, sink: &ByteSink) -> bool
    ensures { IsTrue result ↔ (0 < source.now.plan.faults + sink.now.plan.faults) }
{
    source.faults() != 0 || sink.faults() != 0
}
