//! A link in memory that is made when it is asked for, and of which a net keeps what was put on it.
ghost use Rattle.std.specs.Prelude.{◌≡◌, ◌↔◌, ◌+◌, ◌<◌, [], IfOk, IsTrue};

use dp_outside::{ByteSink, ByteSource};
use dp_rows::Memory;
use std::alloc::Global;

/// How many bytes the other end of a link takes.
const ROOM: usize = 1 << 20;

/// What the other end of a link sends, whether byte by byte, and which takes and puts of the link fail.
#[derive(Drop)]
pub(crate) struct LinkPlan {
    pub(crate) bytes: Vec<u8>,
    pub(crate) by_bytes: bool,
    pub(crate) takes: Vec<u64>,
    pub(crate) puts: Vec<u64>,
}

/// The sizes of the pieces in which so many bytes come: of one byte each, or as they are asked for.
pub(crate) fn cuts_of(alloc: Global, count: usize, by_bytes: bool) -> Result<Vec<usize>, Memory> {
    if by_bytes {
        vec![in alloc; 1usize; count]
    } else {
        Ok(Vec::new(alloc))
    }
}

/// The link of a plan.
pub(crate) fn link_of(alloc: Global, plan: LinkPlan) -> Result<(ByteSource, ByteSink), Memory>
    ensures source { IfOk result (λ link. link.0.plan.faults ≡ 0) }
    ensures unread { IfOk result (λ link. link.0.tape.given ≡ []) }
    ensures sink { IfOk result (λ link. link.1.plan.faults ≡ 0) }
{
    let LinkPlan {
        bytes,
        by_bytes,
        takes,
        puts,
    } = plan;
    let cuts = cuts_of(alloc, bytes.len(), by_bytes)?;
    let source = ByteSource::new(bytes, cuts, takes)?;
    let sink = ByteSink::new(alloc, ROOM, puts)?;
    Ok((source, sink))
}

/// Whether a link that came back had failed.
pub(crate) fn have_failed(source: &ByteSource, sink: &ByteSink) -> bool
    ensures { IsTrue result ↔ (0 < source.now.plan.faults + sink.now.plan.faults) }
{
    source.faults() != 0 || sink.faults() != 0
}
