//! What serving so many IDEs and engines comes to.
ghost use Rattle.std.specs.Prelude.{◌≡◌, count_by};
ghost use Rattle.dp_crews.specs.Summaries as spec;

use crate::tallies::Tally;
use dp_registry::{AdmitReply, Entry};

/// How many registrations and stops were accepted, how many sessions were given and how many refused by their key,
/// and how many ended without an entry: for want of room in the registry, for want of a key, by a fault of the
/// engine's link, and out of memory.
#[derive(Clone, Copy, Debug, PartialEq, Eq)]
pub struct Summary {
    pub accepted: u64,
    pub admitted: u64,
    pub refused: u64,
    pub full: u64,
    pub unfit: u64,
    pub failed: u64,
    pub starved: u64,
}

/// Whether it is a registration or a stop that was accepted.
fn is_accepted(entry: &Entry) -> bool
    ensures { result ≡ spec.is_accepted entry.now }
{
    match entry {
        Entry::Register {
            host: _,
            port: _,
            key: _,
            multiple: _,
            reply,
        } => *reply == 0,
        Entry::Stop {
            host: _,
            key: _,
            reply,
        } => *reply == 0,
        Entry::Admit { key: _, reply: _ } => false,
        Entry::Dismiss { session: _ } => false,
    }
}

/// Whether it is an admission that gave a session.
fn is_given(entry: &Entry) -> bool
    ensures { result ≡ spec.is_given entry.now }
{
    match entry {
        Entry::Admit { key: _, reply } => match reply {
            AdmitReply::Given {
                session: _,
                host: _,
                port: _,
            } => true,
            AdmitReply::Unknown => false,
            AdmitReply::Busy(_) => false,
        },
        _ => false,
    }
}

/// Whether it is an admission that gave none.
fn is_turned(entry: &Entry) -> bool
    ensures { result ≡ spec.is_turned entry.now }
{
    match entry {
        Entry::Admit { key: _, reply } => match reply {
            AdmitReply::Given {
                session: _,
                host: _,
                port: _,
            } => false,
            AdmitReply::Unknown => true,
            AdmitReply::Busy(_) => true,
        },
        _ => false,
    }
}

/// How many registrations and stops were accepted.
fn accepted(journal: &[Entry]) -> usize
    ensures { result ≡ count_by spec.is_accepted journal.now }
{
    journal.iter().filter(|entry| is_accepted(entry)).count()
}

/// How many sessions were given.
fn given(journal: &[Entry]) -> usize
    ensures { result ≡ count_by spec.is_given journal.now }
{
    journal.iter().filter(|entry| is_given(entry)).count()
}

/// How many admissions gave none.
fn turned(journal: &[Entry]) -> usize
    ensures { result ≡ count_by spec.is_turned journal.now }
{
    journal.iter().filter(|entry| is_turned(entry)).count()
}

/// What a journal and a tally of the sessions that made no entry come to.
pub(crate) fn summary_of(journal: &[Entry], tally: Tally) -> Summary
    ensures { result ≡ spec.summary journal.now tally }
{
    Summary {
        accepted: accepted(journal) as u64,
        admitted: given(journal) as u64,
        refused: turned(journal) as u64,
        full: tally.full,
        unfit: tally.unfit,
        failed: tally.failed,
        starved: tally.starved,
    }
}
