//! The lines of a file's text.

ghost use Rattle.std.specs.Prelude.{◌≡◌, ◌≤◌, length};
ghost use Rattle.dp_view.specs.Source as spec;
ghost use Rattle.dp_view.specs.inner.Lines as inner;

/// How many bytes the first lines of a text have, so many.
fn lines_length(text: &[u8], count: u32) -> usize
    ensures length { result ≡ inner.lines_length count text.now }
    ensures within { result ≤ length text.now }
{
    let mut left = count;
    let mut at = 0;
    while at < text.len() && left > 0 {
        if text[at] == b'\n' {
            left -= 1;
        }
        at += 1;
    }
    at
}

/// The lines of a text from one up to another, counted from 1; without a first one from the beginning, and without a
/// last one up to the end. A line keeps its line feed, and what follows the last line feed is a line too. Lines beyond
/// the end are none, and from one line up to an earlier one there is none. Takes no memory.
pub fn source_lines(text: &[u8], first: Option<u32>, last: Option<u32>) -> &[u8]
    ensures { result.now ≡ spec.source_lines first last text.now }
{
    let before = first.unwrap_or(1).saturating_sub(1);
    let (_, lines) = text.split_at(lines_length(text, before));
    match last {
        None => lines,
        Some(last) => &lines[..lines_length(lines, last.saturating_sub(before))],
    }
}
