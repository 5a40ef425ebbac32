//! Calls of the crates of the program's commands.

use dp_bytes::Memory;
use dp_ide::{IdeError, Script};
use dp_outside::{ByteSink, ByteSource};
use dp_show::show;
use dp_words::{Command, read_words};
use std::alloc::Global;

/// A script is read.
pub(crate) fn dp_ide(alloc: Global) -> Result<String, IdeError> {
    // call
    let script = Script::read(alloc, b"send status -i 1\nattr status starting\n")?;
    let count = script.instructions().len();
    // end
    let answer = format!(in alloc; "{count} instructions")?;
    Ok(answer)
}

/// Packets are shown.
pub(crate) fn dp_show(alloc: Global) -> Result<String, Memory> {
    let packet = b"12\0<a b = '1'/>\0".to_vec(alloc)?;
    // call: the packet is `<a b = '1'/>` in its frame
    let mut input = ByteSource::new(packet, Vec::new(alloc), Vec::new(alloc))?;
    let mut out = ByteSink::new(alloc, 64, Vec::new(alloc))?;
    let shown = show(alloc, &mut input, &mut out);
    // end
    let (is_shown, bytes) = (shown.is_ok(), out.taken().len());
    format!(in alloc; "{is_shown}, {bytes} bytes")
}

/// The words of a run of a file.
fn run_words(alloc: Global) -> Result<Vec<String>, Memory> {
    let mut words = Vec::new(alloc);
    words.push(String::from_str(alloc, "run")?)?;
    words.push(String::from_str(alloc, "a.php")?)?;
    Ok(words)
}

/// Words are read.
pub(crate) fn dp_words(alloc: Global) -> Result<String, Memory> {
    let words = run_words(alloc)?;
    // call: the words are `run a.php`
    let command = read_words(alloc, words.as_slice())?;
    let bound = match command {
        Some(Command::Run(program)) => program.bound,
        _ => 0,
    };
    // end
    format!(in alloc; "{bound}")
}
