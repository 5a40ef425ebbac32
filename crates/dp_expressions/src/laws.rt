//! What the readers of expressions read, in the words of the grammar.

ghost use Rattle.std.specs.Prelude.{ℕ, List};
ghost use Rattle.dp_lexer.specs.declared.token.Token.{Token};
ghost use Rattle.dp_expressions.specs.declared.operand.Part.{Part};
ghost use Rattle.dp_expressions.specs.Grammar.{IsPlace};
ghost use Rattle.dp_expressions.specs.Longest.{IsReadBy, rule_of, may_read};
ghost use Rattle.dp_expressions.specs.inner.Readers.{reading, reading_place};

/// What `expression` and `place` answer is the grammar's: the longest text that is spelled, or the first token with
/// which nothing is.
pub fn reads_the_grammar()
    ensures expressions { (part : Part) (level : ℕ) (tokens : List Token) → may_read part level tokens →
        IsReadBy (rule_of part) level tokens (reading level part tokens) }
    ensures places { (level : ℕ) (tokens : List Token) → IsReadBy IsPlace level tokens (reading_place level tokens) }
{}
