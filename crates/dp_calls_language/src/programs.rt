//! Calls of the crates of trees and values.

use dp_bytes::{Bytes, Items, Memory};
use dp_operations::{binary, text};
use dp_parse::{ParseError, parse_file};
use dp_tree::{BinaryOp, Bundle, BundleFile, Files};
use dp_value::{Value, ValueError};
use std::alloc::Global;

/// Operators are case tables.
pub(crate) fn dp_operations(alloc: Global) -> Result<String, ValueError> {
    // call
    let product = binary(alloc, BinaryOp::Mul, &Value::Int(6), &Value::Int(7))?;
    let spelt = text(alloc, &product)?;
    // end
    let answer = String::from_utf8_lossy(alloc, spelt.as_slice())?;
    Ok(answer)
}

/// A file of this text.
pub(crate) fn file(alloc: Global, text: &[u8]) -> Result<BundleFile, ParseError> {
    if text.len() > 1_000_000 {
        return Err(ParseError::Memory);
    }
    let tree = parse_file(alloc, text)?;
    let name = Bytes::from_slice(alloc, b"a.php")?;
    let text = Bytes::from_slice(alloc, text)?;
    Ok(BundleFile { name, text, tree })
}

/// A program of one file.
pub(crate) fn dp_tree(alloc: Global, file: BundleFile) -> Result<Bundle, Memory> {
    // call: of a file with its tree, as parse_file of dp_parse makes it
    let mut files = Vec::new(alloc);
    files.push(file)?;
    let files = Files::of(alloc, Items::of(files))?;
    let bundle = Bundle { files };
    // end
    Ok(bundle)
}

/// The program of the calls.
pub(crate) fn program(alloc: Global) -> Result<Bundle, ParseError> {
    let text = b"<?php\n$x = 6;\necho f($x);\nfunction f($n) { return $n * 7; }\n";
    let file = file(alloc, text)?;
    let bundle = dp_tree(alloc, file)?;
    Ok(bundle)
}

/// How many files a program has.
pub(crate) fn files(alloc: Global, bundle: &Bundle) -> Result<String, Memory> {
    let count = bundle.files.len();
    format!(in alloc; "{count} file")
}
