//! The run of a program.

ghost use Rattle.std.specs.Prelude.{◌≡◌, ◌≤◌, map, string_bytes, IfOk, Result, MatchResult};
ghost use Rattle.dp_outside.specs.Changes.{change};
ghost use Rattle.dp_tree.specs.FileNames.{AreFileNames};
ghost use Rattle.dp_tree.specs.declared.bundle.Bundle.{Bundle as Program};
ghost use Rattle.dp_bundle.specs.declared.errors.BundleError.{BundleError as Unmade};
ghost use Rattle.dp_program.specs.Programs.{FilesMake, IsComplete, RequestsFiles};
ghost use Rattle.dp_program.specs.Runs.{Runs, RunCaused, of_program};

use crate::ends::run_program;
use crate::errors::RunError;
use crate::programs::fetch_program;
use dp_outside::{Shelf, Sink};
use std::alloc::Global;

/// Runs the program of the files of these names, of which the first is the main one, to its end, and puts what it
/// wrote. It has at most `bound` moments. Answers the status with which the program ends: 0, or that of its exit.
///
/// The files are fetched first, in order, each once; then they are parsed. Nothing is put before the end.
pub fn run<H: Shelf, K: Sink>(
    alloc: Global,
    names: &[String],
    bound: u64,
    shelf: &mut H,
    out: &mut K,
) -> Result<u8, RunError>
    requires { AreFileNames (map string_bytes names.now) }
    ensures ends { MatchResult result
        (λ status. Runs status (H.files shelf.old) (map string_bytes names.now) bound
        (change K.taken K.faults out.old out.new))
        (λ why. RunCaused why (H.files shelf.old) (H.faults shelf.old) (H.faults shelf.new)
        (map string_bytes names.now) bound (change K.taken K.faults out.old out.new)) }
    ensures status { IfOk result (λ status. status ≤ 199) }
    // Only these files are asked for, each once, in order: all of them, or those up to one that is not fetched.
    ensures asked { RequestsFiles (of_program result) (H.fetched shelf.old) (H.fetched shelf.new)
        (map string_bytes names.now) }
    // What the files of a shelf that tells them make is answered, unless the shelf or memory fails.
    ensures held { (asked : Result Program Unmade) → FilesMake (H.files shelf.old) (map string_bytes names.now) asked
        → IsComplete asked (of_program result) (H.faults shelf.old) (H.faults shelf.new) }
    ensures shelf_later { H.faults shelf.old ≤ H.faults shelf.new }
    ensures files { H.files shelf.new ≡ H.files shelf.old }
    ensures out_later { K.faults out.old ≤ K.faults out.new }
{
    match fetch_program(alloc, names, shelf) {
        Ok(program) => run_program(alloc, &program, bound, out),
        Err(why) => Err(RunError::Program(why)),
    }
}
