//! The commands that `clap` is told, each with the names of the words behind it, and what is read of their matches.

ghost use Rattle.std.specs.Prelude.{◌≡◌, ◌≢◌, ◌≤◌, ◌-◌, drop, length, true, false, IfOk, IfSome};
ghost use Rattle.std.specs.Prelude.{MatchResult, Ok, None, map, option_map, string_bytes};
ghost use Rattle.clap.specs.Words.{app_of, first_of, found_of, kind_of, rows_of, rule_of, shape_of};
ghost use Rattle.clap.specs.declared.error.kind.ErrorKind.TheVariants.{OutOfMemory};
ghost use Rattle.dp_words.specs.Words.{IsInvocation, Task};
ghost use Rattle.dp_words.specs.Plain as plain;
ghost use Rattle.dp_words.specs.inner.Rows.{AreRows, count_in};
ghost use Rattle.dp_words.specs.inner.Shapes as shape;

use clap::error::ErrorKind;
use clap::{Arg, ArgAction, ArgMatches, Command, Error};
use dp_bytes::Memory;
use dp_tree::FILE_COUNT_LIMIT;
use std::alloc::{AllocError, Global};

/// One word, by its name.
fn word<'a>(alloc: Global, name: &'a str) -> Arg<'a>
    ensures rule { rule_of result ≡ shape.word_rule name.entry.now }
    ensures local { result.global ≡ false }
{
    Arg::new(alloc, name).action(ArgAction::Set).required(true)
}

/// `FILE..`: as many words as a program may have files.
fn files<'a>(alloc: Global) -> Arg<'a>
    ensures rule { rule_of result ≡ shape.files_rule }
    ensures local { result.global ≡ false }
{
    Arg::new(alloc, "FILE")
        .action(ArgAction::Append)
        .num_args(1..=FILE_COUNT_LIMIT)
        .required(true)
}

/// `--bound N`.
fn bound<'a>(alloc: Global) -> Arg<'a>
    ensures rule { rule_of result ≡ shape.bound_rule }
    ensures local { result.global ≡ false }
{
    Arg::new(alloc, "bound")
        .long("bound")
        .action(ArgAction::Set)
}

/// A command with a bound, if it is given.
fn bounded<'a>(alloc: Global, name: &'a str) -> Result<Command<'a>, AllocError>
    ensures { IfOk result (λ c. shape_of c ≡ shape.bounded name.entry.now) }
{
    Command::new(alloc, name).arg(bound(alloc))
}

/// `run [--bound N] FILE..`
fn run<'a>(alloc: Global) -> Result<Command<'a>, AllocError>
    ensures { IfOk result (λ c. shape_of c ≡ shape.run) }
{
    bounded(alloc, "run")?.arg(files(alloc))
}

/// `talk [--bound N] KEY FILE..`
fn talk<'a>(alloc: Global) -> Result<Command<'a>, AllocError>
    ensures { IfOk result (λ c. shape_of c ≡ shape.talk) }
{
    bounded(alloc, "talk")?
        .arg(word(alloc, "KEY"))?
        .arg(files(alloc))
}

/// `tape [--bound N] KEY FILE..`
fn tape<'a>(alloc: Global) -> Result<Command<'a>, AllocError>
    ensures { IfOk result (λ c. shape_of c ≡ shape.tape) }
{
    bounded(alloc, "tape")?
        .arg(word(alloc, "KEY"))?
        .arg(files(alloc))
}

/// `audit [--bound N] KEY FILE..`
fn audit<'a>(alloc: Global) -> Result<Command<'a>, AllocError>
    ensures { IfOk result (λ c. shape_of c ≡ shape.audit) }
{
    bounded(alloc, "audit")?
        .arg(word(alloc, "KEY"))?
        .arg(files(alloc))
}

/// `dap [--bound N] FILE..`
fn dap<'a>(alloc: Global) -> Result<Command<'a>, AllocError>
    ensures { IfOk result (λ c. shape_of c ≡ shape.dap) }
{
    bounded(alloc, "dap")?.arg(files(alloc))
}

/// `engine [--bound N] HOST PORT KEY FILE..`
fn engine<'a>(alloc: Global) -> Result<Command<'a>, AllocError>
    ensures { IfOk result (λ c. shape_of c ≡ shape.engine) }
{
    bounded(alloc, "engine")?
        .arg(word(alloc, "HOST"))?
        .arg(word(alloc, "PORT"))?
        .arg(word(alloc, "KEY"))?
        .arg(files(alloc))
}

/// `async [--bound N] HOST PORT KEY FILE..`
fn async_<'a>(alloc: Global) -> Result<Command<'a>, AllocError>
    ensures { IfOk result (λ c. shape_of c ≡ shape.async) }
{
    bounded(alloc, "async")?
        .arg(word(alloc, "HOST"))?
        .arg(word(alloc, "PORT"))?
        .arg(word(alloc, "KEY"))?
        .arg(files(alloc))
}

/// `ide PORT SCRIPT`
fn ide<'a>(alloc: Global) -> Result<Command<'a>, AllocError>
    ensures { IfOk result (λ c. shape_of c ≡ shape.ide) }
{
    Command::new(alloc, "ide")
        .arg(word(alloc, "PORT"))?
        .arg(word(alloc, "SCRIPT"))
}

/// `replay [--bound N] EVENTS FILE..`
fn replay<'a>(alloc: Global) -> Result<Command<'a>, AllocError>
    ensures { IfOk result (λ c. shape_of c ≡ shape.replay) }
{
    bounded(alloc, "replay")?
        .arg(word(alloc, "EVENTS"))?
        .arg(files(alloc))
}

/// `soak N SEED`
fn soak<'a>(alloc: Global) -> Result<Command<'a>, AllocError>
    ensures { IfOk result (λ c. shape_of c ≡ shape.soak) }
{
    Command::new(alloc, "soak")
        .arg(word(alloc, "N"))?
        .arg(word(alloc, "SEED"))
}

/// `proxy IDEPORT ENGINEPORT REGISTRATIONS SESSIONS`
fn proxy<'a>(alloc: Global) -> Result<Command<'a>, AllocError>
    ensures { IfOk result (λ c. shape_of c ≡ shape.proxy) }
{
    Command::new(alloc, "proxy")
        .arg(word(alloc, "IDEPORT"))?
        .arg(word(alloc, "ENGINEPORT"))?
        .arg(word(alloc, "REGISTRATIONS"))?
        .arg(word(alloc, "SESSIONS"))
}

/// The program's own name, and how its words are read.
fn settings<'a>(alloc: Global) -> Command<'a>
    ensures { app_of result ≡ shape.settings }
{
    Command::new(alloc, "dbgp")
        .no_binary_name(true)
        .disable_help_flag(true)
        .disable_help_subcommand(true)
        .disable_version_flag(true)
        .subcommand_required(true)
}

/// The commands of the program.
fn program<'a>(alloc: Global) -> Result<Command<'a>, AllocError>
    ensures { IfOk result (λ c. app_of c ≡ shape.program) }
{
    settings(alloc)
        .subcommand(run(alloc)?)?
        .subcommand(talk(alloc)?)?
        .subcommand(tape(alloc)?)?
        .subcommand(audit(alloc)?)?
        .subcommand(dap(alloc)?)?
        .subcommand(engine(alloc)?)?
        .subcommand(async_(alloc)?)?
        .subcommand(ide(alloc)?)?
        .subcommand(replay(alloc)?)?
        .subcommand(soak(alloc)?)?
        .subcommand(proxy(alloc)?)?
        .subcommand(Command::new(alloc, "show"))
}

/// The word of this name that is given.
pub(crate) fn word_of<'a>(given: &ArgMatches<'a>, name: &str) -> Option<&'a str>
    ensures { option_map (λ word. word.now) result ≡ first_of name.now (rows_of (found_of given.now)) }
{
    given.get_str(name)
}

/// How many files are given.
fn file_count(given: &ArgMatches) -> usize
    ensures { result ≡ count_in (rows_of (found_of given.now)) }
{
    match given.get_raw("FILE") {
        Some(raw) => raw.len(),
        None => 0,
    }
}

/// The files that are given: they are the last of the words.
pub(crate) fn files_of<'a>(words: &'a [String], given: &ArgMatches) -> &'a [String]
    requires few { count_in (rows_of (found_of given.now)) ≤ length words.now }
    ensures { result.now ≡ drop (length words.entry.now - count_in (rows_of (found_of given.now))) words.entry.now }
{
    &words[words.len() - file_count(given)..]
}

/// The matches of the words, if they are read.
pub(crate) fn parse<'a>(
    alloc: Global,
    words: &'a [String],
) -> Result<Option<ArgMatches<'a>>, Memory>
    requires plain { plain.are_plain (map string_bytes words.now) ≡ true }
    ensures found { IfOk result (λ read. IfSome read (AreRows (map string_bytes words.entry.now))) }
    ensures none { result ≡ Ok None → (task : Task) → IsInvocation (map string_bytes words.now) task → ⊥ }
{
    match program(alloc)?.try_get_matches_from(words) {
        Ok(matches) => Ok(Some(matches)),
        Err(why) => refused(why),
    }
}

/// Words that are not read, unless memory ran out.
fn refused<'a>(why: Error) -> Result<Option<ArgMatches<'a>>, Memory>
    ensures { MatchResult result (λ read. (read ≡ None) × (kind_of why ≢ OutOfMemory))
        (λ _. kind_of why ≡ OutOfMemory) }
{
    if why.kind() == ErrorKind::OutOfMemory {
        Err(Memory)
    } else {
        Ok(None)
    }
}
