//! The first test of the words: none is empty, and none begins with `-` but one `--bound`.

ghost use Rattle.std.specs.Prelude.{◌≡◌, ◌&&◌, if◌then◌else◌, codes, map, string_bytes};
ghost use Rattle.std.specs.Str.{bytes_eq};
ghost use Rattle.std.specs.List.{list_all};
ghost use Rattle.dp_words.specs.Plain as spec;

use crate::names::is_option;

/// Whether a word is not empty and asks for no option.
fn is_plain(word: &str) -> bool
    ensures { result ≡ spec.is_plain word.now }
{
    !word.is_empty() && !is_option(word.as_bytes())
}

/// Whether no word is empty or asks for an option.
fn all_plain(words: &[String]) -> bool
    ensures { result ≡ list_all (λ word. spec.is_plain (string_bytes word)) words.now }
{
    words.iter().all(|word| is_plain(word.as_str()))
}

/// Whether a command of this name may have a bound.
fn has_bound(name: &str) -> bool
    ensures { result ≡ spec.has_bound name.now }
{
    name == "run"
        || name == "talk"
        || name == "tape"
        || name == "audit"
        || name == "dap"
        || name == "engine"
        || name == "async"
        || name == "replay"
}

/// Whether a word and others are plain.
fn are_both(word: &str, others: &[String]) -> bool
    ensures { result ≡ (spec.is_plain word.now && list_all (λ other. spec.is_plain (string_bytes other)) others.now) }
{
    is_plain(word) && all_plain(others)
}

/// Whether three parts of the words behind such a command are plain, but for a bound in its place.
fn are_fit(word: &str, number: &str, others: &[String]) -> bool
    ensures { result ≡ (if bytes_eq word.now (codes "--bound")
        then (spec.is_plain number.now && list_all (λ other. spec.is_plain (string_bytes other)) others.now)
        else (spec.is_plain word.now
        && (spec.is_plain number.now && list_all (λ other. spec.is_plain (string_bytes other)) others.now))) }
{
    if word == "--bound" {
        are_both(number, others)
    } else {
        is_plain(word) && are_both(number, others)
    }
}

/// Whether the words behind such a command are plain, but for a bound in its place.
#[tactic(auto, using(crate::proofs::NameLaws::plain_map))]
fn are_bounded(words: &[String]) -> bool
    ensures { result ≡ spec.are_bounded (map string_bytes words.now) }
{
    match words.split_first() {
        None => true,
        Some((word, behind)) => match behind.split_first() {
            None => is_plain(word.as_str()),
            Some((number, others)) => are_fit(word.as_str(), number.as_str(), others),
        },
    }
}

/// Whether all words are plain, but for a bound in its place.
#[tactic(auto, using(crate::proofs::NameLaws::plain_map))]
pub(crate) fn are_plain(words: &[String]) -> bool
    ensures { result ≡ spec.are_plain (map string_bytes words.now) }
{
    match words.split_first() {
        None => true,
        Some((name, behind)) => {
            let fits = if has_bound(name.as_str()) {
                are_bounded(behind)
            } else {
                all_plain(behind)
            };
            is_plain(name.as_str()) && fits
        }
    }
}
