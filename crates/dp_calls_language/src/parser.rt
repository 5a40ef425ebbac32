//! Calls of the crates of the parser.

use dp_expressions::{Part, expression};
use dp_lexer::{LexError, lex, lex_expression};
use dp_parse::{ParseError, is_pure, parse_expression};
use dp_token_rules::Tokens;
use std::alloc::Global;

/// A text is cut into tokens.
pub(crate) fn dp_lexer(alloc: Global) -> Result<String, LexError> {
    // call
    let tokens = lex(alloc, b"<?php echo 6 * 7;")?;
    let count = tokens.len();
    // end
    let answer = format!(in alloc; "{count} tokens")?;
    Ok(answer)
}

/// Tokens are taken one by one.
pub(crate) fn dp_token_rules(alloc: Global) -> Result<String, LexError> {
    // call
    let tokens = lex_expression(alloc, b"7 + $x")?;
    let mut rest = Tokens::new(tokens.as_slice());
    let number = rest.number();
    let left = rest.left();
    // end
    let number = number.unwrap_or(0);
    let answer = format!(in alloc; "{number}, {left} left")?;
    Ok(answer)
}

/// An expression is read, and what stands behind it is left.
pub(crate) fn dp_expressions(alloc: Global) -> Result<String, LexError> {
    // call
    let tokens = lex_expression(alloc, b"6 * 7 ; 8")?;
    let mut rest = Tokens::new(tokens.as_slice());
    let product = expression(alloc, &mut rest, 32, Part::Whole);
    let left = rest.left();
    // end
    let is_read = product.is_ok();
    let answer = format!(in alloc; "{is_read}, {left} left")?;
    Ok(answer)
}

/// A text has one tree, or the first thing that is wrong.
pub(crate) fn dp_parse(alloc: Global) -> Result<String, ParseError> {
    // call
    let sum = parse_expression(alloc, b"$x + 1")?;
    let wrong = parse_expression(alloc, b"$x + ;");
    // end
    let pure = is_pure(&sum);
    let answer = match wrong {
        Err(ParseError::Unexpected { token }) => format!(in alloc; "{pure}, token {token}")?,
        _ => format!(in alloc; "{pure}")?,
    };
    Ok(answer)
}
