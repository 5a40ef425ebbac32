//! The calls on the pages of the crates of the ground, of texts and of the language: makes each, and prints what it
//! answers.
#![tactic(auto)]

mod ground;
mod parser;
mod programs;
mod runs;
mod texts;

use dp_bytes::Memory;
use dp_tree::Bundle;
use std::alloc::Global;
use std::io;
use std::marker::Brand;
use std::sync::ledger::Blank;

/// Puts what the call of a crate answers.
fn put<E: Drop>(told: &mut String, name: &str, answer: Result<String, E>) -> Result<(), Memory> {
    match answer {
        Ok(answer) => {
            let answer = answer.as_str();
            writeln!(told, "{name}: {answer}")?;
        }
        Err(_) => writeln!(told, "{name}: no answer")?,
    }
    Ok(())
}

/// Puts what the calls of the ground answer.
fn put_ground(alloc: Global, told: &mut String) -> Result<(), Memory> {
    put(told, "dp_outside", ground::dp_outside(alloc))?;
    put(told, "dp_adapters", ground::dp_adapters(alloc))?;
    put(told, "dp_bytes", ground::dp_bytes(alloc))?;
    put(told, "dp_value", ground::dp_value(alloc))?;
    put(told, "dp_wire", ground::dp_wire(alloc))?;
    put(told, "dp_polled", ground::dp_polled(alloc))
}

/// Puts what the calls of texts answer.
fn put_texts(alloc: Global, told: &mut String) -> Result<(), Memory> {
    put(told, "dp_markup", texts::dp_markup(alloc))?;
    put(told, "dp_packet", texts::dp_packet(alloc))?;
    put(told, "dp_command", texts::dp_command(alloc))?;
    put(told, "dp_features", texts::dp_features(alloc))?;
    put(told, "dp_reply", texts::dp_reply(alloc))?;
    put(told, "dp_bodies", texts::dp_bodies(alloc))
}

/// Puts what the calls of the parser answer, and that of operators.
fn put_parser(alloc: Global, told: &mut String) -> Result<(), Memory> {
    put(told, "dp_lexer", parser::dp_lexer(alloc))?;
    put(told, "dp_token_rules", parser::dp_token_rules(alloc))?;
    put(told, "dp_expressions", parser::dp_expressions(alloc))?;
    put(told, "dp_parse", parser::dp_parse(alloc))?;
    put(told, "dp_operations", programs::dp_operations(alloc))
}

/// Puts what the calls over a program answer.
fn put_runs(alloc: Global, told: &mut String, bundle: &Bundle) -> Result<(), Memory> {
    put(told, "dp_tree", programs::files(alloc, bundle))?;
    put(told, "dp_state", runs::dp_state(alloc, bundle))?;
    put(told, "dp_actions", runs::dp_actions(alloc, bundle))?;
    put(told, "dp_meaning", runs::dp_meaning(alloc, bundle))?;
    let blank = Blank::new(1);
    let answer = runs::dp_step::<Brand>(alloc, bundle, blank);
    put(told, "dp_step", answer)
}

fn main(rt: HostRuntime) -> io::Result<()> {
    let alloc = rt.alloc();
    let mut told = String::new(alloc);
    put_ground(alloc, &mut told)?;
    put_texts(alloc, &mut told)?;
    put_parser(alloc, &mut told)?;
    if let Ok(bundle) = programs::program(alloc) {
        put_runs(alloc, &mut told, &bundle)?;
    }
    print!(rt; "{}", told.as_str())?;
    Ok(())
}
