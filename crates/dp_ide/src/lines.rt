//! The lines of a script.
ghost use Rattle.std.specs.Prelude.{◌≡◌, ◌≢◌, ◌++◌, ℕ, List, MatchOption};
ghost use Rattle.dp_grammar.specs.Lines as spec;
ghost use Rattle.dp_ide.specs.inner.Readers.{IsRun};

/// What stands behind the word that begins the bytes.
pub(crate) fn behind<'a>(bytes: &'a [u8], word: &[u8]) -> Option<&'a [u8]>
    ensures { MatchOption result ((rest : List ℕ) → bytes.now ≢ word.now ++ rest)
        (λ rest. bytes.now ≡ word.now ++ rest.now) }
{
    bytes.strip_prefix(word)
}

/// How many bytes stand before the first that is this one, or before the end.
pub(crate) fn run_before(bytes: &[u8], mark: u8) -> usize
    ensures { IsRun mark bytes.now result }
{
    for at in 0..bytes.len() {
        if bytes[at] == mark {
            return at;
        }
    }
    bytes.len()
}

/// Whether a line does nothing: it is empty or begins with `#`.
pub(crate) fn is_idle(line: &[u8]) -> bool
    ensures { result ≡ spec.is_idle line.now }
{
    match line {
        [] => true,
        [byte, ..] => *byte == b'#',
    }
}
