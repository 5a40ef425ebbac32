//! The calls of the crates of the parser and of trees.

use crate::language::{
    told_code, told_expression, told_expression_tokens, told_file, told_purity, told_tokens,
};
use dp_rows::Memory;
use std::alloc::Global;

/// A call of a crate of the parser or of trees.
#[derive(Clone, Copy)]
pub(crate) enum LanguageCall {
    Lex,
    LexExpression,
    ParseFile,
    ParseExpression,
    CodeLines,
    Pure,
}

/// The most bytes of an input.
const LONGEST: usize = 1 << 24;

impl LanguageCall {
    /// What comes of the call, in words.
    pub(crate) fn answer(self, alloc: Global, input: &[u8]) -> Result<String, Memory> {
        if input.len() > LONGEST {
            return String::from_str(alloc, "the input is too long for a row");
        }
        match self {
            LanguageCall::Lex => told_tokens(alloc, input),
            LanguageCall::LexExpression => told_expression_tokens(alloc, input),
            LanguageCall::ParseFile => told_file(alloc, input),
            LanguageCall::ParseExpression => told_expression(alloc, input),
            LanguageCall::CodeLines => told_code(alloc, input),
            LanguageCall::Pure => told_purity(alloc, input),
        }
    }
}
