//! The program of the calls, and what its values are.

use dp_bytes::{Bytes, Items, Memory};
use dp_meaning::evaluation;
use dp_packet::{Property, Shape};
use dp_parse::{ParseError, parse_file};
use dp_state::State;
use dp_tree::{Bundle, BundleFile, Expression, Files};
use dp_value::Value;
use dp_write_commands::Evaluator;
use std::alloc::Global;

/// Evaluates by the meaning's evaluator.
pub(crate) struct Meant;

impl Evaluator for Meant {
    fn evaluation(
        alloc: Global,
        bundle: &Bundle,
        e: &Expression,
        state: &State,
    ) -> Result<(Option<Value>, State), Memory> {
        evaluation(alloc, bundle, e, state)
    }
}

/// A program of this file.
fn of_file(alloc: Global, file: BundleFile) -> Result<Bundle, Memory> {
    let mut files = Vec::new(alloc);
    files.push(file)?;
    let files = Files::of(alloc, Items::of(files))?;
    Ok(Bundle { files })
}

/// A program of one file, which stops first on line 2.
pub(crate) fn program(alloc: Global) -> Result<Bundle, ParseError> {
    let text = b"<?php\n$x = 6;\necho $x * 7;\n";
    let tree = parse_file(alloc, text)?;
    let name = Bytes::from_slice(alloc, b"a.php")?;
    let text = Bytes::from_slice(alloc, text)?;
    let bundle = of_file(alloc, BundleFile { name, text, tree })?;
    Ok(bundle)
}

/// The integer that a property shows.
pub(crate) fn int_of(property: &Property) -> i64 {
    match property.shape {
        Shape::Int(int) => int,
        _ => 0,
    }
}

/// The integer that a value is.
pub(crate) fn int_in(value: Option<&Value>) -> i64 {
    match value {
        Some(Value::Int(int)) => *int,
        _ => 0,
    }
}
