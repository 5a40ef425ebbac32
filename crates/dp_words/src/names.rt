//! Words that are names of files.

ghost use Rattle.std.specs.Prelude.{◌≡◌, ◌↔◌, true, IsTrue, not, map, All, string_bytes};
ghost use Rattle.std.specs.List.{list_all};
ghost use Rattle.std.specs.Str.{bytes_eq};
ghost use Rattle.dp_bytes.specs.Names.{without_slash as bare};
ghost use Rattle.dp_wire.specs.Frames.{has_no_nul};
ghost use Rattle.dp_words.specs.Words.{AreFileWords, IsFileName, IsFileWord, are_apart as all_apart, is_option};

use dp_bytes::are_alike;
use dp_tree::{FILE_COUNT_LIMIT, FILE_NAME_LIMIT};

/// Whether the bytes are the name of a file.
pub(crate) fn is_file_name(name: &[u8]) -> bool
    ensures { IsTrue result ↔ IsFileName name.now }
{
    if name.is_empty() {
        return false;
    }
    if name.len() > FILE_NAME_LIMIT {
        return false;
    }
    are_no_nul(name)
}

/// Whether no byte is NUL.
fn are_no_nul(name: &[u8]) -> bool
    ensures { result ≡ has_no_nul name.now }
{
    name.iter().all(|byte| *byte != 0)
}

/// Whether a word asks for an option: it begins with `-`.
pub(crate) fn is_option(word: &[u8]) -> bool
    ensures { result ≡ is_option word.now }
{
    match word {
        [byte, ..] => *byte == b'-',
        [] => false,
    }
}

/// Whether a word is the name of a file, and asks for no option.
pub(crate) fn is_file(word: &str) -> bool
    ensures { IsTrue result ↔ IsFileWord word.now }
{
    is_file_name(word.as_bytes()) && !is_option(word.as_bytes())
}

/// Whether each word is the name of a file, and asks for no option.
fn are_named(words: &[String]) -> bool
    ensures { IsTrue result ↔ All (λ word. IsFileWord (string_bytes word)) words.now }
{
    for word in words {
        if !is_file(word.as_str()) {
            return false;
        }
    }
    true
}

/// Whether a name is apart from others.
fn is_apart(name: &str, others: &[String]) -> bool
    ensures { result ≡ list_all (λ other. not (bytes_eq (bare name.now) (bare (string_bytes other)))) others.now }
{
    others
        .iter()
        .all(|other| !are_alike(name.as_bytes(), other.as_bytes()))
}

/// Whether no two names are the same without one leading `/` of each.
#[tactic(auto, using(crate::proofs::NameLaws::apart_cons))]
fn are_apart(names: &[String]) -> bool
    ensures { result ≡ all_apart (map string_bytes names.now) }
{
    match names.split_first() {
        None => true,
        Some((name, others)) => is_apart(name.as_str(), others) && are_apart(others),
    }
}

/// Whether words are the names of a program's files.
#[tactic(auto, using(crate::proofs::NameLaws::files_if, crate::proofs::NameLaws::files_some, crate::proofs::NameLaws::files_few, crate::proofs::NameLaws::files_named))]
pub(crate) fn are_files(words: &[String]) -> bool
    ensures { IsTrue result ↔ AreFileWords (map string_bytes words.now) }
{
    if words.is_empty() {
        return false;
    }
    if words.len() > FILE_COUNT_LIMIT {
        return false;
    }
    if !are_named(words) {
        return false;
    }
    are_apart(words)
}
