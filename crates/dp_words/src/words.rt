//! The words of a command line.
ghost use Rattle.std.specs.Prelude.{◌≡◌, ◌≤◌, ℕ, List, Some, None, IfOk, IfSome, IfNone, length};
ghost use Rattle.std.specs.Prelude.{Ok, codes, false, map, option_and_then, string_bytes};
ghost use Rattle.std.specs.Option.{option_map};
ghost use Rattle.clap.specs.Words.{first_of, found_of, rows_of};
ghost use Rattle.dp_words.specs.Words.{AreFileWords, Invocation, IsFileWord, IsHostWord, IsInvocation, IsSession};
ghost use Rattle.dp_words.specs.Words.{Task, bound_of as bound_word, port_of, session_count_of, seed_limit};
ghost use Rattle.dp_words.specs.Words.{served_count_of};
ghost use Rattle.dp_bytes.specs.Decimals.{decimal_in};
ghost use Rattle.dp_words.specs.Commands.{invocation_seen, task_of};
ghost use Rattle.dp_words.specs.Plain.{are_plain};
ghost use Rattle.dp_words.specs.inner.Given.{bound_given};
ghost use Rattle.dp_words.specs.inner.Rows.{AreRows, IsGiven, count_in, program_in};

use crate::names::{are_files, is_file, is_option};
use crate::parser::{files_of, parse, word_of};
use crate::plain::are_plain;
use clap::ArgMatches;
use dp_bytes::{Memory, decimal};
use dp_outside::{Host, KEY_LIMIT, is_name};
use std::alloc::Global;

/// A program that is asked for: how many moments it may have, and the names of its files.
#[derive(Clone, Copy, Debug)]
pub struct Program<'a> {
    pub bound: u64,
    pub files: &'a [String],
}

/// A session that is asked for: its key, and its program.
#[derive(Clone, Copy, Debug)]
pub struct Talk<'a> {
    pub key: &'a str,
    pub program: Program<'a>,
}

/// Where an IDE waits for an engine.
#[derive(Clone, Copy, Debug)]
pub struct Address<'a> {
    pub host: &'a str,
    pub port: u16,
}

/// A session over a link that is dialled.
#[derive(Clone, Copy, Debug)]
pub struct Engine<'a> {
    pub address: Address<'a>,
    pub talk: Talk<'a>,
}

/// A script that is played over one link to a port.
#[derive(Clone, Copy, Debug)]
pub struct Ide<'a> {
    pub port: u16,
    pub script: &'a str,
}

/// A list of events over a program.
#[derive(Clone, Copy, Debug)]
pub struct Replay<'a> {
    pub events: &'a str,
    pub program: Program<'a>,
}

/// A list of events that is drawn: how many sessions it has, and from which seed.
#[derive(Clone, Copy, Debug)]
pub struct Soak {
    pub count: u32,
    pub seed: u64,
}

/// A proxy that is asked for: at which ports IDEs and engines come, and how many of each it serves.
#[derive(Clone, Copy, Debug)]
pub struct Proxy {
    pub ide_port: u16,
    pub engine_port: u16,
    pub registrations: u32,
    pub sessions: u32,
}

/// What the program is asked for.
#[derive(Clone, Copy, Debug)]
pub enum Command<'a> {
    /// The run of a program.
    Run(Program<'a>),
    /// One session over a program.
    Talk(Talk<'a>),
    /// The record of one session over a program.
    Tape(Talk<'a>),
    /// Whether a record of one is honest.
    Audit(Talk<'a>),
    /// One session over a program, in the Debug Adapter Protocol.
    Dap(Program<'a>),
    /// One session over a link.
    Engine(Engine<'a>),
    /// One session over a link, which listens while its program runs.
    Async(Engine<'a>),
    /// A script over a link.
    Ide(Ide<'a>),
    /// The transcript of events.
    Replay(Replay<'a>),
    /// The tally of events that are drawn.
    Soak(Soak),
    /// Sessions and registrations over links, in threads.
    Proxy(Proxy),
    /// The elements of the packets that are read.
    Show,
}

/// How many moments a program may have where the words do not say it.
pub const DEFAULT_BOUND: u64 = 1_000_000;

/// The most moments that the words may ask for.
pub(crate) const BOUND_LIMIT: u64 = 100_000_000;

/// The bound that a word is: a decimal from 1 to the most.
fn read_bound(word: &str) -> Option<u64>
    ensures { result ≡ bound_word word.now }
{
    let bound = decimal(word.as_bytes(), BOUND_LIMIT)?;
    if bound == 0 {
        return None;
    }
    Some(bound)
}

/// The program of these files, where they are names of files.
fn program_of(program: Program<'_>) -> Option<Program<'_>>
    ensures found { IfSome result (λ p. (invocation_seen p ≡ invocation_seen program.entry)
        × AreFileWords (invocation_seen p).names) }
    ensures none { IfNone result (AreFileWords (invocation_seen program.entry).names → ⊥) }
{
    if are_files(program.files) {
        return Some(program);
    }
    None
}

/// The bound that a word gives, or that which stands where none is given.
fn bound_of(word: Option<&str>) -> Option<u64>
    ensures { result ≡ bound_given (option_map (λ w. w.now) word.entry) }
{
    match word {
        None => Some(DEFAULT_BOUND),
        Some(word) => read_bound(word),
    }
}

/// The program that is given, by its bound and the names of its files.
fn program_in<'a>(words: &'a [String], given: &ArgMatches<'a>) -> Option<Program<'a>>
    requires few { count_in (rows_of (found_of given.now)) ≤ length words.now }
    ensures { option_map invocation_seen result ≡ program_in (rows_of (found_of given.now)) words.entry.now }
{
    let bound = bound_of(word_of(given, "bound"))?;
    let files = files_of(words, given);
    Some(Program { bound, files })
}

/// `run [--bound N] FILE..`, and `dap` likewise
fn read_run<'a>(words: &'a [String], given: &ArgMatches<'a>) -> Option<Program<'a>>
    requires few { count_in (rows_of (found_of given.now)) ≤ length words.now }
    ensures found { IfSome result (λ p.
        (program_in (rows_of (found_of given.now)) words.entry.now ≡ Some (invocation_seen p))
        × AreFileWords (invocation_seen p).names) }
    ensures none { IfNone result ((ask : Invocation)
        → program_in (rows_of (found_of given.now)) words.entry.now ≡ Some ask → AreFileWords ask.names → ⊥) }
{
    program_of(program_in(words, given)?)
}

/// The session of this key over the program of these files.
fn talk_of<'a>(key: &'a str, program: Program<'a>) -> Option<Talk<'a>>
    ensures found { IfSome result (λ t. (t.key.now ≡ key.now)
        × (invocation_seen t.program ≡ invocation_seen program.entry)
        × IsSession key.now (invocation_seen program.entry)) }
    ensures none { IfNone result (IsSession key.now (invocation_seen program.entry) → ⊥) }
{
    if !is_name(key.as_bytes(), KEY_LIMIT) {
        return None;
    }
    if is_option(key.as_bytes()) {
        return None;
    }
    let program = program_of(program)?;
    Some(Talk { key, program })
}

/// `talk [--bound N] KEY FILE..`, and the same behind `tape` and `audit`.
fn read_talk<'a>(words: &'a [String], given: &ArgMatches<'a>) -> Option<Talk<'a>>
    requires few { count_in (rows_of (found_of given.now)) ≤ length words.now }
    ensures found { IfSome result (λ t. (first_of (codes "KEY") (rows_of (found_of given.now)) ≡ Some t.key.now)
        × (program_in (rows_of (found_of given.now)) words.entry.now ≡ Some (invocation_seen t.program))
        × IsSession t.key.now (invocation_seen t.program)) }
    ensures none { IfNone result ((key : List ℕ) (ask : Invocation)
        → first_of (codes "KEY") (rows_of (found_of given.now)) ≡ Some key
        → program_in (rows_of (found_of given.now)) words.entry.now ≡ Some ask → IsSession key ask → ⊥) }
{
    let program = program_in(words, given)?;
    talk_of(word_of(given, "KEY")?, program)
}

/// The most that a port may be.
const PORT_LIMIT: u64 = 65_535;

/// The port that a word is: a decimal from 1 to the most.
fn read_port(word: &str) -> Option<u16>
    ensures { result ≡ port_of word.now }
{
    let port = decimal(word.as_bytes(), PORT_LIMIT)?;
    if port == 0 {
        return None;
    }
    Some(port as u16)
}

/// The address that two words are.
fn address_of<'a>(host: &'a str, port: &str) -> Option<Address<'a>>
    ensures found { IfSome result (λ a. (a.host.now ≡ host.now) × IsHostWord host.now
        × (port_of port.now ≡ Some a.port)) }
    ensures none { IfNone result (IsHostWord host.now → (n : ℕ) → port_of port.now ≡ Some n → ⊥) }
{
    if is_option(host.as_bytes()) {
        return None;
    }
    if Host::of(host.as_bytes()).is_none() {
        return None;
    }
    let port = read_port(port)?;
    Some(Address { host, port })
}

/// The session of a key over a program, and where its IDE waits.
fn engine_of<'a>(
    host: &'a str,
    port: &str,
    key: &'a str,
    program: Program<'a>,
) -> Option<Engine<'a>>
    ensures found { IfSome result (λ e. (e.address.host.now ≡ host.now) × IsHostWord host.now
        × (port_of port.now ≡ Some e.address.port)
        × (e.talk.key.now ≡ key.now) × (invocation_seen e.talk.program ≡ invocation_seen program.entry)
        × IsSession key.now (invocation_seen program.entry)) }
    ensures none { IfNone result (IsHostWord host.now → (n : ℕ) → port_of port.now ≡ Some n
        → IsSession key.now (invocation_seen program.entry) → ⊥) }
{
    let address = address_of(host, port)?;
    let talk = talk_of(key, program)?;
    Some(Engine { address, talk })
}

/// `engine [--bound N] HOST PORT KEY FILE..`, and the same behind `async`.
fn read_engine<'a>(words: &'a [String], given: &ArgMatches<'a>) -> Option<Engine<'a>>
    requires few { count_in (rows_of (found_of given.now)) ≤ length words.now }
    ensures found { IfSome result (λ e.
        (first_of (codes "HOST") (rows_of (found_of given.now)) ≡ Some e.address.host.now)
        × IsHostWord e.address.host.now
        × (option_and_then port_of (first_of (codes "PORT") (rows_of (found_of given.now))) ≡ Some e.address.port)
        × (first_of (codes "KEY") (rows_of (found_of given.now)) ≡ Some e.talk.key.now)
        × (program_in (rows_of (found_of given.now)) words.entry.now ≡ Some (invocation_seen e.talk.program))
        × IsSession e.talk.key.now (invocation_seen e.talk.program)) }
    ensures none { IfNone result ((host number key : List ℕ) (port : ℕ) (ask : Invocation)
        → first_of (codes "HOST") (rows_of (found_of given.now)) ≡ Some host
        → first_of (codes "PORT") (rows_of (found_of given.now)) ≡ Some number
        → first_of (codes "KEY") (rows_of (found_of given.now)) ≡ Some key
        → program_in (rows_of (found_of given.now)) words.entry.now ≡ Some ask
        → IsHostWord host → port_of number ≡ Some port → IsSession key ask → ⊥) }
{
    let program = program_in(words, given)?;
    let host = word_of(given, "HOST")?;
    let port = word_of(given, "PORT")?;
    engine_of(host, port, word_of(given, "KEY")?, program)
}

/// The script that is played over a link to a port.
fn ide_of<'a>(number: &str, script: &'a str) -> Option<Ide<'a>>
    ensures found { IfSome result (λ i. (i.script.now ≡ script.now) × (port_of number.now ≡ Some i.port)
        × IsFileWord script.now) }
    ensures none { IfNone result ((n : ℕ) → port_of number.now ≡ Some n → IsFileWord script.now → ⊥) }
{
    if !is_file(script) {
        return None;
    }
    let port = read_port(number)?;
    Some(Ide { port, script })
}

/// `ide PORT SCRIPT`
fn read_ide<'a>(given: &ArgMatches<'a>) -> Option<Ide<'a>>
    ensures found { IfSome result (λ i.
        (option_and_then port_of (first_of (codes "PORT") (rows_of (found_of given.now))) ≡ Some i.port)
        × (first_of (codes "SCRIPT") (rows_of (found_of given.now)) ≡ Some i.script.now)
        × IsFileWord i.script.now) }
    ensures none { IfNone result ((number script : List ℕ) (port : ℕ)
        → first_of (codes "PORT") (rows_of (found_of given.now)) ≡ Some number
        → first_of (codes "SCRIPT") (rows_of (found_of given.now)) ≡ Some script
        → port_of number ≡ Some port → IsFileWord script → ⊥) }
{
    let port = word_of(given, "PORT")?;
    ide_of(port, word_of(given, "SCRIPT")?)
}

/// The events of a list over the program of these files.
fn replay_of<'a>(events: &'a str, program: Program<'a>) -> Option<Replay<'a>>
    ensures found { IfSome result (λ r. (r.events.now ≡ events.now)
        × (invocation_seen r.program ≡ invocation_seen program.entry)
        × IsFileWord events.now × AreFileWords (invocation_seen program.entry).names) }
    ensures none { IfNone result (IsFileWord events.now → AreFileWords (invocation_seen program.entry).names → ⊥) }
{
    if !is_file(events) {
        return None;
    }
    let program = program_of(program)?;
    Some(Replay { events, program })
}

/// `replay [--bound N] EVENTS FILE..`
fn read_replay<'a>(words: &'a [String], given: &ArgMatches<'a>) -> Option<Replay<'a>>
    requires few { count_in (rows_of (found_of given.now)) ≤ length words.now }
    ensures found { IfSome result (λ r. (first_of (codes "EVENTS") (rows_of (found_of given.now)) ≡ Some r.events.now)
        × (program_in (rows_of (found_of given.now)) words.entry.now ≡ Some (invocation_seen r.program))
        × IsFileWord r.events.now × AreFileWords (invocation_seen r.program).names) }
    ensures none { IfNone result ((events : List ℕ) (ask : Invocation)
        → first_of (codes "EVENTS") (rows_of (found_of given.now)) ≡ Some events
        → program_in (rows_of (found_of given.now)) words.entry.now ≡ Some ask
        → IsFileWord events → AreFileWords ask.names → ⊥) }
{
    let program = program_in(words, given)?;
    replay_of(word_of(given, "EVENTS")?, program)
}

/// The most sessions that a soak may have.
const SOAK_LIMIT: u64 = 10_000;

/// How many sessions a word asks for: a decimal from 1 to the most.
fn read_count(word: &str) -> Option<u32>
    ensures { result ≡ session_count_of word.now }
{
    let count = decimal(word.as_bytes(), SOAK_LIMIT)?;
    if count == 0 {
        return None;
    }
    Some(count as u32)
}

/// `soak N SEED`
fn read_soak(given: &ArgMatches) -> Option<Soak>
    ensures found { IfSome result (λ s.
        (option_and_then session_count_of (first_of (codes "N") (rows_of (found_of given.now))) ≡ Some s.count)
        × (option_and_then (decimal_in seed_limit) (first_of (codes "SEED") (rows_of (found_of given.now)))
        ≡ Some s.seed)) }
    ensures none { IfNone result ((number drawn : List ℕ) (count seed : ℕ)
        → first_of (codes "N") (rows_of (found_of given.now)) ≡ Some number
        → first_of (codes "SEED") (rows_of (found_of given.now)) ≡ Some drawn
        → session_count_of number ≡ Some count → decimal_in seed_limit drawn ≡ Some seed → ⊥) }
{
    let count = read_count(word_of(given, "N")?)?;
    let seed = decimal(word_of(given, "SEED")?.as_bytes(), u64::MAX)?;
    Some(Soak { count, seed })
}

/// The most registrations, and the most sessions, that a proxy may serve.
const SERVED_LIMIT: u64 = 65_535;

/// How many a proxy serves: a decimal from 1 to the most.
fn read_served(word: &str) -> Option<u32>
    ensures { result ≡ served_count_of word.now }
{
    let served = decimal(word.as_bytes(), SERVED_LIMIT)?;
    if served == 0 {
        return None;
    }
    Some(served as u32)
}

/// `proxy IDEPORT ENGINEPORT REGISTRATIONS SESSIONS`
fn read_proxy(given: &ArgMatches) -> Option<Proxy>
    ensures found { IfSome result (λ p.
        (option_and_then port_of (first_of (codes "IDEPORT") (rows_of (found_of given.now))) ≡ Some p.ide_port)
        × (option_and_then port_of (first_of (codes "ENGINEPORT") (rows_of (found_of given.now)))
        ≡ Some p.engine_port)
        × (option_and_then served_count_of (first_of (codes "REGISTRATIONS") (rows_of (found_of given.now)))
        ≡ Some p.registrations)
        × (option_and_then served_count_of (first_of (codes "SESSIONS") (rows_of (found_of given.now)))
        ≡ Some p.sessions)) }
    ensures none { IfNone result ((ides engines registrations sessions : List ℕ) (a b c d : ℕ)
        → first_of (codes "IDEPORT") (rows_of (found_of given.now)) ≡ Some ides
        → first_of (codes "ENGINEPORT") (rows_of (found_of given.now)) ≡ Some engines
        → first_of (codes "REGISTRATIONS") (rows_of (found_of given.now)) ≡ Some registrations
        → first_of (codes "SESSIONS") (rows_of (found_of given.now)) ≡ Some sessions
        → port_of ides ≡ Some a → port_of engines ≡ Some b
        → served_count_of registrations ≡ Some c → served_count_of sessions ≡ Some d → ⊥) }
{
    let ide_port = read_port(word_of(given, "IDEPORT")?)?;
    let engine_port = read_port(word_of(given, "ENGINEPORT")?)?;
    let registrations = read_served(word_of(given, "REGISTRATIONS")?)?;
    let sessions = read_served(word_of(given, "SESSIONS")?)?;
    Some(Proxy {
        ide_port,
        engine_port,
        registrations,
        sessions,
    })
}

/// What a command of this name asks for with what it is given.
#[tactic(auto, using(crate::proofs::RowLaws::few_files))]
fn command_named<'a>(words: &'a [String], name: &str, given: &ArgMatches<'a>) -> Option<Command<'a>>
    requires given { IsGiven (map string_bytes words.now) name.now (rows_of (found_of given.now)) }
    ensures found { IfSome result (λ command. IsInvocation (map string_bytes words.entry.now) (task_of command)) }
    ensures none { IfNone result ((task : Task) → IsInvocation (map string_bytes words.entry.now) task → ⊥) }
{
    if name == "run" {
        return Some(Command::Run(read_run(words, given)?));
    }
    if name == "talk" {
        return Some(Command::Talk(read_talk(words, given)?));
    }
    if name == "tape" {
        return Some(Command::Tape(read_talk(words, given)?));
    }
    if name == "audit" {
        return Some(Command::Audit(read_talk(words, given)?));
    }
    if name == "dap" {
        return Some(Command::Dap(read_run(words, given)?));
    }
    if name == "engine" {
        return Some(Command::Engine(read_engine(words, given)?));
    }
    if name == "async" {
        return Some(Command::Async(read_engine(words, given)?));
    }
    if name == "ide" {
        return Some(Command::Ide(read_ide(given)?));
    }
    if name == "replay" {
        return Some(Command::Replay(read_replay(words, given)?));
    }
    if name == "soak" {
        return Some(Command::Soak(read_soak(given)?));
    }
    if name == "proxy" {
        return Some(Command::Proxy(read_proxy(given)?));
    }
    Some(Command::Show)
}

/// What the matches of the words ask for.
fn command_in<'a>(words: &'a [String], matches: &ArgMatches<'a>) -> Option<Command<'a>>
    requires rows { AreRows (map string_bytes words.now) matches.now }
    ensures found { IfSome result (λ command. IsInvocation (map string_bytes words.entry.now) (task_of command)) }
    ensures none { IfNone result ((task : Task) → IsInvocation (map string_bytes words.entry.now) task → ⊥) }
{
    match matches.subcommand() {
        None => None,
        Some((name, given)) => command_named(words, name, given),
    }
}

/// What the words ask for, and `None` exactly where they ask for nothing, unless memory ran out. The words are
/// tested first: none is empty, and none begins with `-` but a `--bound` directly behind a command that may have
/// one, and before a word.
pub fn read_words<'a>(alloc: Global, words: &'a [String]) -> Result<Option<Command<'a>>, Memory>
    ensures found { IfOk result (λ read. IfSome read (λ command. IsInvocation (map string_bytes words.now)
        (task_of command))) }
    ensures none { result ≡ Ok None → (task : Task) → IsInvocation (map string_bytes words.now) task → ⊥ }
    // Such words are refused without any memory.
    ensures plain { are_plain (map string_bytes words.now) ≡ false → result ≡ Ok None }
{
    if !are_plain(words) {
        return Ok(None);
    }
    match parse(alloc, words)? {
        None => Ok(None),
        Some(matches) => Ok(command_in(words, &matches)),
    }
}
