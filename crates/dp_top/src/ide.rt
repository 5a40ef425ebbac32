//! The command `ide`: a script that is played over a link that an engine makes.
ghost use Rattle.std.specs.Prelude.{◌≡◌, ◌≤◌, [], ◌∷◌, Ok, Some, IfOk, IfErr, MatchResult};
ghost use Rattle.dp_outside.specs.Changes.{change};
ghost use Rattle.dp_outside.specs.Reports.{BeginsEmpty, grown};
ghost use Rattle.dp_ide.specs.Scripts.{IsFirstBad};
ghost use Rattle.dp_top.specs.Ide.{IdeFails, IsScriptFile, Plays, failure_of};
ghost use Rattle.dp_top.specs.Seen.{net_seen};
ghost use Rattle.dp_top.specs.inner.BadLines.{AreNone, UnreadSo};
ghost use Rattle.dp_top.specs.inner.Gated.{GatedSo, IsReportedBy, IsWholeScript, MetSo};
ghost use Rattle.dp_top.specs.inner.Kept.{LentContinues};
ghost use Rattle.dp_top.specs.Statuses.{exit_limit};

use crate::failures::{Failure, Refused};
use crate::lines::{LINES_LIMIT, unfetched};
use crate::objects::Objects;
use dp_ide::{IdeError, Script, play};
use dp_outside::{Gate, Net, Shelf, Sink, Source, Spawner};
use dp_words::Ide;
use std::alloc::Global;
use std::sync::Wait;

/// The failure that an end of playing is.
fn failure_of(why: IdeError) -> Failure
    ensures { result ≡ failure_of why }
{
    match why {
        IdeError::BadScript { line } => Failure::Script { line },
        IdeError::Differs {
            line,
            wanted,
            found,
        } => Failure::Differs {
            line,
            wanted,
            found,
        },
        IdeError::PeerEnd => Failure::PeerEnd,
        IdeError::BadPacket { offset } => Failure::Packet { offset },
        IdeError::ReadFault => Failure::Network,
        IdeError::WriteFault => Failure::Network,
        IdeError::OutFault => Failure::Output,
        IdeError::Memory => Failure::Memory,
    }
}

/// The script that bytes are.
fn script_in<'a>(alloc: Global, bytes: &[u8]) -> Result<Script, Refused<'a>>
    ensures script { IfOk result (IsWholeScript bytes.now) }
    ensures bad { IfErr result (λ why. AreNone IsFirstBad why.failure why.name.now bytes.now) }
{
    if bytes.len() > LINES_LIMIT {
        return Err(Refused::unnamed(Failure::Script { line: 0 }));
    }
    match Script::read(alloc, bytes) {
        Ok(script) => Ok(script),
        Err(why) => Err(Refused::unnamed(failure_of(why))),
    }
}

/// The script of this name.
fn fetch_script<'a, H: Shelf>(
    alloc: Global,
    script: &'a str,
    shelf: &mut H,
) -> Result<Script, Refused<'a>>
    ensures held { IfOk result (IsScriptFile (H.files shelf.old) script.now) }
    ensures unread { IfErr result (λ why. UnreadSo IsFirstBad why.failure why.name.now script.now (H.files shelf.old)
        (H.faults shelf.old) (H.faults shelf.new)) }
    ensures fetched { H.fetched shelf.new ≡ grown (H.fetched shelf.old) (script.now ∷ []) }
    ensures files { H.files shelf.new ≡ H.files shelf.old }
    ensures later { H.faults shelf.old ≤ H.faults shelf.new }
{
    match shelf.fetch(alloc, script, LINES_LIMIT) {
        Ok(bytes) => script_in(alloc, bytes.as_slice()),
        Err(why) => Err(unfetched(script, why)),
    }
}

/// Plays a script over the link that a new gate gives, ends the link and puts it back. `None` where it gave none.
fn meet<R: Wait + Sync, D: Gate, O: Sink>(
    rt: &R,
    alloc: Global,
    script: &Script,
    door: &mut D,
    out: &mut O,
) -> Option<Result<(), IdeError>>
    requires faults { D.faults door.old ≡ 0 }
    requires returned { D.returned door.old ≡ 0 }
    requires accepts { BeginsEmpty (D.accepts door.old) }
    requires accepted { BeginsEmpty (D.accepted door.old) }
    requires retired { BeginsEmpty (D.retired door.old) }
    ensures met { MetSo result script.now (record {
      accepts = D.accepts door.new;
      accepted = D.accepted door.new;
      retired = D.retired door.new;
      faults = D.faults door.new;
      returned = D.returned door.new;
    }) (change O.taken O.faults out.old out.new) }
    ensures port { D.port door.new ≡ D.port door.old }
    ensures out_later { O.faults out.old ≤ O.faults out.new }
{
    match door.accept() {
        Ok((mut source, mut sink, _)) => {
            let end = play(rt, alloc, script, &mut source, &mut sink, out);
            sink.finish();
            door.retire(source, sink);
            Some(end)
        }
        Err(_) => None,
    }
}

/// Plays a script over the link that a gate at this port gives, and shuts the gate. `None` where no link came.
fn play_at<R: Wait + Sync, N: Net, O: Sink>(
    rt: &R,
    alloc: Global,
    port: u16,
    script: &Script,
    net: &mut N,
    out: &mut O,
) -> Option<Result<(), IdeError>>
    ensures gated { GatedSo result port script.now (change O.taken O.faults out.old out.new)
        (net_seen N.Dialer net.old) (net_seen N.Dialer net.new) }
    ensures out_later { O.faults out.old ≤ O.faults out.new }
    ensures net_later { N.faults net.old ≤ N.faults net.new }
    ensures returned_later { N.returned net.old ≤ N.returned net.new }
{
    match net.gate(port) {
        Ok(mut door) => {
            let end = meet(rt, alloc, script, &mut door, out);
            net.shut(door);
            end
        }
        Err(_) => None,
    }
}

/// What is reported of how a script was played.
fn judge<'a>(played: Option<Result<(), IdeError>>) -> Result<u8, Refused<'a>>
    ensures well { IfOk result (λ status. (status ≡ 0) × (played ≡ Some (Ok tt))) }
    ensures ill { IfErr result (λ why. IsReportedBy played why.failure × (why.name.now ≡ [])) }
{
    match played {
        None => Err(Refused::unnamed(Failure::Network)),
        Some(Ok(())) => Ok(0),
        Some(Err(why)) => Err(Refused::unnamed(failure_of(why))),
    }
}

/// Plays a script over a link that is made to a port; what it prints goes to `out`.
pub(crate) fn ide<'a, R: Wait + Sync, H: Shelf, S: Source, K: Sink, E: Sink, N: Net, P: Spawner>(
    rt: &R,
    alloc: Global,
    request: Ide<'a>,
    objects: &mut Objects<H, S, K, E, N, P>,
) -> Result<u8, Refused<'a>>
    ensures ends { MatchResult result
        (λ status. Plays status request.entry.port request.entry.script.now objects.old.seen objects.new.seen)
        (λ why. IdeFails why.failure why.name.now request.entry.port request.entry.script.now objects.old.seen
        objects.new.seen) }
    ensures status { IfOk result (λ status. status ≤ exit_limit) }
    ensures fetched { objects.new.seen.shelf.fetched ≡ grown objects.old.seen.shelf.fetched
        (request.entry.script.now ∷ []) }
    ensures unspawned { objects.new.seen.spawner ≡ objects.old.seen.spawner }
    ensures goes_on { LentContinues objects.old objects.new }
{
    match fetch_script(alloc, request.script, objects.shelf) {
        Ok(script) => {
            let played = play_at(rt, alloc, request.port, &script, objects.net, objects.out);
            drop(script);
            judge(played)
        }
        Err(why) => Err(why),
    }
}
