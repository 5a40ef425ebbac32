//! Moments and ends of programs, in words.

use dp_rows::{Memory, put_bytes};
use dp_state::{Moment, Outcome, State};

/// Puts a moment: its number, what comes there, its file and line, how many frames there are, and its function.
pub(crate) fn put_moment(text: &mut String, moment: &Moment) -> Result<(), Memory> {
    let Moment {
        number,
        kind,
        file,
        line,
        depth,
        function,
    } = moment;
    write!(
        text,
        "{number} {kind:?} file {file} line {line} depth {depth}"
    )?;
    if let Some(name) = function {
        text.push(' ')?;
        put_bytes(text, name.as_slice())?;
    }
    text.push('\n')?;
    Ok(())
}

/// Puts how a program ended, and what it has written.
pub(crate) fn put_end(text: &mut String, outcome: Outcome, state: &State) -> Result<(), Memory> {
    match outcome {
        Outcome::Done => text.push_str("done")?,
        Outcome::Exit(status) => write!(text, "exit {status}")?,
        Outcome::Fatal { kind, file, line } => {
            write!(text, "fatal {kind:?} file {file} line {line}")?
        }
        Outcome::Bound => text.push_str("bound")?,
    }
    text.push_str(", output ")?;
    put_bytes(text, state.output.as_slice())?;
    text.push('\n')?;
    Ok(())
}
