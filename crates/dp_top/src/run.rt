//! The command `run`.
ghost use Rattle.std.specs.Prelude.{◌≡◌, ◌≤◌, map, string_bytes, Some, IfOk, Result, MatchResult};
ghost use Rattle.dp_outside.specs.Changes.{change};
ghost use Rattle.dp_tree.specs.declared.bundle.Bundle.{Bundle};
ghost use Rattle.dp_bundle.specs.declared.errors.BundleError.{BundleError as Unmade};
ghost use Rattle.dp_program.specs.Programs.{FilesMake};
ghost use Rattle.dp_program.specs.Runs.{Runs};
ghost use Rattle.dp_words.specs.Words.{AreFileWords};
ghost use Rattle.dp_words.specs.Commands.{invocation_seen};
ghost use Rattle.dp_top.specs.Runs.{IsFetched, IsProgramReported, IsRunReported, failure_of, name_at as name_in};
ghost use Rattle.dp_top.specs.Runs.{reported_name};
ghost use Rattle.dp_top.specs.Runs.{program_failure, program_name, RunFails};
ghost use Rattle.dp_top.specs.inner.Completeness.{IsComplete};
ghost use Rattle.dp_top.specs.Statuses.{exit_limit};

use crate::failures::{Failure, Refused, refusal};
use dp_outside::{Shelf, Sink};
use dp_program::{ProgramError, RunError};
use dp_words::Program;
use std::alloc::Global;

/// The name of the file of this number.
fn name_at(names: &[String], number: u32) -> &[u8]
    ensures { result.now ≡ name_in (map string_bytes names.now) number }
{
    match names.get(number as usize) {
        Some(name) => name.as_bytes(),
        None => b"",
    }
}

/// The failure to report where files make no program.
fn program_failure(why: &ProgramError) -> Failure
    ensures { result ≡ program_failure why.now }
{
    match why {
        ProgramError::Shelf { file: _ } => Failure::ShelfFailed,
        ProgramError::Missing { file: _ } => Failure::NoFile,
        ProgramError::TooLong { file: _ } => Failure::TooLong,
        ProgramError::Source { file: _, error } => refusal(error),
        ProgramError::Memory => Failure::Memory,
    }
}

/// The name of the file that it is of, where it is of one, else nothing.
fn program_name<'a>(names: &'a [String], why: &ProgramError) -> &'a [u8]
    ensures { result.now ≡ program_name (map string_bytes names.now) why.now }
{
    match why {
        ProgramError::Shelf { file } => name_at(names, *file),
        ProgramError::Missing { file } => name_at(names, *file),
        ProgramError::TooLong { file } => name_at(names, *file),
        ProgramError::Source { file, error: _ } => name_at(names, *file),
        ProgramError::Memory => b"",
    }
}

/// What is reported of files that make no program.
pub(crate) fn refusal_of_program<'a>(program: Program<'a>, why: ProgramError) -> Refused<'a>
    ensures { IsProgramReported result.failure result.name.now (invocation_seen program.entry) why }
{
    Refused {
        failure: program_failure(&why),
        name: program_name(program.files, &why),
    }
}

/// The failure that the end of a run is.
fn failure_of(bound: u64, why: &RunError) -> Failure
    ensures { result ≡ failure_of bound why.now }
{
    match why {
        RunError::Program(why) => program_failure(why),
        RunError::Fatal {
            kind,
            file: _,
            line,
        } => Failure::Fatal {
            kind: *kind,
            line: *line,
        },
        RunError::Bound => Failure::Bound { steps: bound },
        RunError::OutFault => Failure::Output,
        RunError::Memory => Failure::Memory,
    }
}

/// The name of the file that the end of a run is of, where it is of one, else nothing.
fn reported_name<'a>(names: &'a [String], why: &RunError) -> &'a [u8]
    ensures { result.now ≡ reported_name (map string_bytes names.now) why.now }
{
    match why {
        RunError::Program(why) => program_name(names, why),
        RunError::Fatal {
            kind: _,
            file,
            line: _,
        } => name_at(names, *file),
        RunError::Bound => b"",
        RunError::OutFault => b"",
        RunError::Memory => b"",
    }
}

/// What is reported of the end of a run.
pub(crate) fn refusal_of_run<'a>(program: Program<'a>, why: &RunError) -> Refused<'a>
    ensures { IsRunReported result.failure result.name.now (invocation_seen program.entry) why.now }
{
    Refused {
        failure: failure_of(program.bound, why),
        name: reported_name(program.files, why),
    }
}

/// Runs a program, puts what it wrote, and answers its status.
pub(crate) fn run<'a, H: Shelf, K: Sink>(
    alloc: Global,
    program: Program<'a>,
    shelf: &mut H,
    out: &mut K,
) -> Result<u8, Refused<'a>>
    requires { AreFileWords (invocation_seen program).names }
    ensures ends { MatchResult result
        (λ status. Runs status (H.files shelf.old) (invocation_seen program.entry).names program.entry.bound
        (change K.taken K.faults out.old out.new))
        (λ why. RunFails why.failure why.name.now (H.files shelf.old) (H.faults shelf.old) (H.faults shelf.new)
        (invocation_seen program.entry) (change K.taken K.faults out.old out.new)) }
    ensures status { IfOk result (λ status. status ≤ exit_limit) }
    ensures held { (asked : Result Bundle Unmade)
        → FilesMake (H.files shelf.old) (invocation_seen program.entry).names asked
        → IsComplete asked result (H.faults shelf.old) (H.faults shelf.new) }
    ensures fetched { IsFetched (Some (invocation_seen program.entry)) (H.fetched shelf.old) (H.fetched shelf.new) }
    ensures shelf_later { H.faults shelf.old ≤ H.faults shelf.new }
    ensures files { H.files shelf.new ≡ H.files shelf.old }
    ensures out_later { K.faults out.old ≤ K.faults out.new }
{
    match dp_program::run(alloc, program.files, program.bound, shelf, out) {
        Ok(status) => Ok(status),
        Err(why) => Err(refusal_of_run(program, &why)),
    }
}
