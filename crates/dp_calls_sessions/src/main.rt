//! The calls on the pages of the crates of sessions, proxies and programs: makes each, and prints what it answers.
#![tactic(auto)]

mod commands;
mod debugger;
mod proxies;
mod states;

use dp_bytes::Memory;
use dp_meaning::{Stop, run_to};
use dp_state::{Moment, State};
use dp_tree::Bundle;
use std::alloc::Global;
use std::io;

/// Puts what the call of a crate answers.
fn put<E: Drop>(told: &mut String, name: &str, answer: Result<String, E>) -> Result<(), Memory> {
    match answer {
        Ok(answer) => {
            let answer = answer.as_str();
            writeln!(told, "{name}: {answer}")?;
        }
        Err(_) => writeln!(told, "{name}: no answer")?,
    }
    Ok(())
}

/// Puts what the calls over a state answer.
fn put_state(
    alloc: Global,
    told: &mut String,
    bundle: &Bundle,
    moment: &Moment,
    state: &mut State,
) -> Result<(), Memory> {
    let answer = debugger::dp_break(alloc, bundle, moment, state);
    put(told, "dp_break", answer)?;
    put(told, "dp_view", debugger::dp_view(alloc, bundle, state))?;
    put(
        told,
        "dp_view_limits",
        debugger::dp_view_limits(alloc, state),
    )?;
    let answer = debugger::dp_view_commands(alloc, bundle, state);
    put(told, "dp_view_commands", answer)?;
    let answer = debugger::dp_write_commands(alloc, bundle, state);
    put(told, "dp_write_commands", answer)
}

/// Puts what the calls over a program answer that has come to a moment.
fn put_debugger(alloc: Global, told: &mut String, bundle: &Bundle) -> Result<(), Memory> {
    put(told, "dp_file_uris", debugger::dp_file_uris(alloc, bundle))?;
    if let Ok(Stop::At(moment, mut state)) = run_to(alloc, bundle, &[], 2, 1000) {
        put_state(alloc, told, bundle, &moment, &mut state)?;
    }
    Ok(())
}

/// Puts what the calls of proxies answer.
fn put_proxies(alloc: Global, told: &mut String) -> Result<(), Memory> {
    put(told, "dp_registry", proxies::dp_registry(alloc))?;
    put(told, "dp_lanes", proxies::dp_lanes(alloc))?;
    put(told, "dp_proxy", proxies::dp_proxy(alloc))?;
    put(told, "dp_events", proxies::dp_events(alloc))
}

/// Puts what the calls of the program's commands answer.
fn put_commands(alloc: Global, told: &mut String) -> Result<(), Memory> {
    put(told, "dp_ide", commands::dp_ide(alloc))?;
    put(told, "dp_show", commands::dp_show(alloc))?;
    put(told, "dp_words", commands::dp_words(alloc))
}

fn main(rt: HostRuntime) -> io::Result<()> {
    let alloc = rt.alloc();
    let mut told = String::new(alloc);
    if let Ok(bundle) = states::program(alloc) {
        put_debugger(alloc, &mut told, &bundle)?;
    }
    put_proxies(alloc, &mut told)?;
    put_commands(alloc, &mut told)?;
    print!(rt; "{}", told.as_str())?;
    Ok(())
}
