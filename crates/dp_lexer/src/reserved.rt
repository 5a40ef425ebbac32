//! The words that name nothing.

ghost use Rattle.std.specs.Prelude.{◌≡◌};
ghost use Rattle.std.specs.List.{list_any};
ghost use Rattle.std.specs.Str.{str_eq_ignore_ascii_case};
ghost use Rattle.dp_lexer.specs.Keywords as words;

use crate::keywords::{is_keyword, is_word};

/// The reserved words that are no tokens of their own.
const OTHER_WORDS: [&str; 68] = [
    "abstract",
    "and",
    "as",
    "callable",
    "case",
    "catch",
    "class",
    "clone",
    "const",
    "declare",
    "default",
    "empty",
    "enddeclare",
    "endfor",
    "endforeach",
    "endif",
    "endswitch",
    "endwhile",
    "eval",
    "extends",
    "final",
    "finally",
    "fn",
    "goto",
    "implements",
    "instanceof",
    "insteadof",
    "interface",
    "list",
    "match",
    "namespace",
    "new",
    "or",
    "print",
    "private",
    "protected",
    "public",
    "readonly",
    "static",
    "switch",
    "throw",
    "trait",
    "try",
    "use",
    "var",
    "xor",
    "yield",
    "int",
    "integer",
    "bool",
    "boolean",
    "float",
    "double",
    "real",
    "string",
    "object",
    "binary",
    "include_once",
    "require_once",
    "__halt_compiler",
    "__class__",
    "__dir__",
    "__file__",
    "__function__",
    "__line__",
    "__method__",
    "__namespace__",
    "__trait__",
];

/// Whether a name is one of these words, in any case of letters.
fn is_among(name: &[u8], words: &[&str]) -> bool
    ensures { result ≡ list_any (λ word. str_eq_ignore_ascii_case name.now word.now) words.now }
{
    words.iter().any(|word| is_word(name, word.as_bytes()))
}

/// Whether a name is a reserved word, in any case of letters: a keyword of the grammar, or a word that PHP keeps for
/// itself. A reserved word names no function and no constant.
pub fn is_reserved(name: &[u8]) -> bool
    ensures { result ≡ words.is_reserved name.now }
{
    is_keyword(name) || is_among(name, &OTHER_WORDS)
}
