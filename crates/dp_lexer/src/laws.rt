//! That the tokens of an expression are a function of its bytes.
ghost use Rattle.dp_lexer.specs.ExpressionTokens.{expression_tokens, IsExact};

/// The tokens of an expression are a function of its bytes.
pub fn tokens_are_exact()
    ensures { IsExact expression_tokens }
{}
