//! What the readers of one symbol read, in the words of the rules.

ghost use Rattle.std.specs.Prelude.{List, Option};
ghost use Rattle.dp_grammar.specs.Exact.{IsExact};
ghost use Rattle.dp_grammar.specs.Rules.{One};
ghost use Rattle.dp_grammar.specs.inner.Input.{one};

/// The readers of one symbol (a mark, a variable, a name, a number, a byte) read exactly the rule
/// of that symbol.
pub fn one_symbol_is_read<S: Drop, T: Drop>()
    ensures { (worth : S → Option T) (symbols : List S)
        → IsExact (One worth) symbols (one worth symbols) }
{}
