//! The command `soak`: a list of events that is drawn, replayed over one program, and counted.
ghost use Rattle.std.specs.Prelude.{◌≡◌, ◌∷◌, ◌<◌, ◌≤◌, [], Ok, map, IfOk, MatchResult};
ghost use Rattle.dp_outside.specs.Changes.{change};
ghost use Rattle.dp_bundle.specs.Bundles.{Makes};
ghost use Rattle.dp_events.specs.Soak.{soak_limit};
ghost use Rattle.dp_tree.specs.FileNames.{AreFileNames};
ghost use Rattle.dp_top.specs.Soak as spec;
ghost use Rattle.dp_top.specs.Statuses.{exit_limit};
ghost use Rattle.dp_world.specs.declared.numbers.Tally.{Tally as Counted};

use crate::engines;
use crate::failures::{Failure, Refused};
use crate::numbers::with_number;
use dp_bytes::{Bytes, Items, Memory};
use dp_engine::Steps;
use dp_events::soak_events;
use dp_outside::Sink;
use dp_program::make_program;
use dp_tree::Bundle;
use dp_words::{DEFAULT_BOUND, Soak};
use dp_world::Tally;
use std::alloc::Global;
use std::marker::Brand;
use std::sync::ledger::{Blank, Ledger};

/// The files of the program: one.
fn soak_files(alloc: Global) -> Result<Items<(Bytes, Bytes)>, Memory>
    ensures { IfOk result (λ files. files ≡ spec.soak_file ∷ []) }
{
    let name = Bytes::from_slice(alloc, b"soak.php")?;
    let text = Bytes::from_slice(
        alloc,
        b"<?php\n$s = 0;\nfor ($i = 1; $i <= 5; $i++) {\n  $s = $s + $i;\n}\necho $s;\n",
    )?;
    let mut files = Vec::new(alloc);
    files.push((name, text))?;
    Ok(Items::of(files))
}

/// The program, unless memory runs out.
fn soak_program(alloc: Global) -> Result<Bundle, Memory>
    ensures made { IfOk result (λ program. Makes (spec.soak_file ∷ []) (Ok program)) }
    ensures named { IfOk result (λ program. AreFileNames (map (λ file. file.name) program.files)) }
{
    let files = soak_files(alloc)?;
    match make_program(alloc, files) {
        Ok(program) => Ok(program),
        Err(_) => Err(Memory),
    }
}

/// The numbers of the list that is drawn, with a ledger for the steps of its engines.
fn count<L: Ledger>(alloc: Global, request: Soak, blank: Blank) -> Result<Tally, Memory>
    requires name { blank.name ≡ L.name }
    requires parts { blank.parts ≡ L.parts }
    requires positive { 0 < blank.parts }
    requires some { 1 ≤ request.count }
    requires most { request.count ≤ soak_limit }
    ensures { IfOk result (spec.IsSoaked request.count request.seed) }
{
    let events = soak_events(alloc, request.count, request.seed)?;
    let program = soak_program(alloc)?;
    let mut steps = Steps::<L>::new(blank);
    engines::tally(alloc, &events, &program, DEFAULT_BOUND, &mut steps)
}

/// The line of a tally.
fn line_of(alloc: Global, tally: &Tally) -> Result<Bytes, Memory>
    ensures { IfOk result (λ line. line ≡ spec.tally_line tally.now) }
{
    let text = with_number(alloc, Vec::new(alloc), b"sessions ", tally.sessions)?;
    let text = with_number(alloc, text, b" refused ", tally.refused)?;
    let text = with_number(alloc, text, b" packets ", tally.packets)?;
    let text = with_number(alloc, text, b" commands ", tally.commands)?;
    let mut text = with_number(alloc, text, b" output ", tally.output)?;
    text.push(b'\n')?;
    Ok(Bytes::of(text))
}

/// The line of the list that is drawn.
fn soak_line(alloc: Global, request: Soak) -> Result<Bytes, Memory>
    requires some { 1 ≤ request.count }
    requires most { request.count ≤ soak_limit }
    ensures { IfOk result (λ line. (tally : Counted) × spec.IsSoaked request.count request.seed tally
        × (line ≡ spec.tally_line tally)) }
{
    // Nobody asks for the steps.
    let blank = Blank::new(1);
    let tally = count::<Brand>(alloc, request, blank)?;
    line_of(alloc, &tally)
}

/// Replays the list that is drawn over the program, with engines in memory, and prints its numbers.
pub(crate) fn soak<'a, K: Sink>(
    alloc: Global,
    request: Soak,
    out: &mut K,
) -> Result<u8, Refused<'a>>
    requires some { 1 ≤ request.count }
    requires most { request.count ≤ soak_limit }
    ensures ends { MatchResult result
        (λ status. spec.Soaks status request.count request.seed (change K.taken K.faults out.old out.new))
        (λ why. spec.SoakFails why.failure why.name.now request.count request.seed
        (change K.taken K.faults out.old out.new)) }
    ensures status { IfOk result (λ status. status ≤ exit_limit) }
    ensures out_later { K.faults out.old ≤ K.faults out.new }
{
    match soak_line(alloc, request) {
        Ok(line) => match out.put(line.as_slice()) {
            Ok(()) => Ok(0),
            Err(_) => Err(Refused::unnamed(Failure::Output)),
        },
        Err(_) => Err(Refused::unnamed(Failure::Memory)),
    }
}
