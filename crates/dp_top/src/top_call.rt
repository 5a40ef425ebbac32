//! The top call.
ghost use Rattle.std.specs.Prelude.{map, string_bytes};
ghost use Rattle.dp_top.specs.Seen.{seen};
ghost use Rattle.dp_top.specs.Top.{Answers};

use crate::commands::carry_out_on;
use crate::failures::{report, say};
use crate::statuses;
use dp_outside::{Net, Shelf, Sink, Source, Spawner};
use dp_words::read_words;
use std::alloc::Global;
use std::sync::Wait;
use std::thread::Threads;

/// Does what the words of a command line ask for, and answers the status with which the program ends.
///
/// `words` are the command line without the program's name: `run [--bound N] FILE..` runs the program of the files, of
/// which the first is the main one, and puts its output on `out`; `talk [--bound N] KEY FILE..` serves a session of KEY
/// over the program, with `input` and `out` as the link, and the program's own output on `err`; `tape [--bound N] KEY
/// FILE..` serves it the same commands and writes the record of it on `out`; `audit [--bound N] KEY FILE..` reads a
/// record from `input` and prints on `out` whether it is honest, or the first line that differs; `dap [--bound N]
/// FILE..` serves one in the Debug Adapter Protocol, with what the program writes behind it on `err`; `engine [--bound
/// N] HOST PORT KEY FILE..` serves one over a link that `net` dials, with the program's own output on `out`; `async
/// [--bound N] HOST PORT KEY FILE..` does so too, and listens while the program runs, beside a thread that reads; `ide
/// PORT SCRIPT` plays the script over the link that an engine makes to the port, and what it prints goes to `out`;
/// `replay [--bound N] EVENTS FILE..` writes the transcript of the list of events on `out`, with engines in memory that
/// run the program; `soak N SEED` replays a list of N sessions that is drawn from SEED over one program, and prints its
/// numbers on `out`; `proxy IDEPORT ENGINEPORT REGISTRATIONS SESSIONS` opens a gate at each port, answers so many IDEs
/// that register at the one, joins so many engines that come to the other to the IDEs that hold their keys, in threads,
/// and prints the numbers on `out`; `show` reads framed packets from `input` and prints the element of each on `out`,
/// in canonical text with a line feed.
///
/// | status | comes | line on `err` |
/// |---|---|---|
/// | 0 to 199 | the program exited so, or came to its end (0); all packets are shown (0); the script or the list was played (0); the numbers are printed (0); the record is honest (0) | none |
/// | 200 | the words ask for nothing | `usage` |
/// | 201 | a file is too long or no program | `bad source NAME REASON NUMBER` |
/// | 202 | the shelf failed, or lacks a file | `shelf failed NAME`, `no file NAME` |
/// | 203 | an output failed | `output failed` |
/// | 204 | a line is not in the grammar of scripts, of lists of events, or of records; N is the first, or 0 where the file is too long | `bad script line N` |
/// | 205 | line N of the script wants W, and F is found, or nothing | `differs line N wanted W found F` |
/// | 206 | the input of `show` ended inside a frame, or the link of `ide` before a packet that was awaited | `peer ended` |
/// | 207 | bytes stand in no command's or packet's place, a text is no packet, a body of `dap` is no request, or too many came | `bad packet offset N` |
/// | 208 | the input or a dial failed, no link came, or it failed; of `proxy` no gate, of it and `async` no thread was had | `network failed` |
/// | 209 | out of memory | `out of memory` |
/// | 210 | a command or a request stopped the program before its end | `stopped by the IDE` |
/// | 211 | a record tells something else than its session does, on the line that is printed | none |
/// | 255 | the program could not go on, or would have had more moments than N | `fatal KIND in NAME on line N`, `bound reached after N steps` |
///
/// It waits in the calls of `input`, of `net`, of a gate and of a link, and for threads of `async` and `proxy`. `soak`,
/// `proxy` and `show` do not use the shelf, nor `run`, `engine`, `async`, `ide`, `replay`, `soak` and `proxy` the
/// input; `net` is used by `engine`, `async`, `ide` and `proxy` alone, and `spawner` by `async` and `proxy`.
pub fn top<R: Threads + Wait + Sync, H: Shelf, S: Source, K: Sink, E: Sink, N: Net, P: Spawner>(
    rt: &R,
    alloc: Global,
    words: &[String],
    shelf: &mut H,
    input: &mut S,
    out: &mut K,
    err: &mut E,
    net: &mut N,
    spawner: &mut P,
) -> u8
    ensures answers { let before = seen H.Shelf S.Source K.Sink E.Sink N.Dialer P.Spawner
        shelf.old input.old out.old err.old net.old spawner.old in
        let after = seen H.Shelf S.Source K.Sink E.Sink N.Dialer P.Spawner
        shelf.new input.new out.new err.new net.new spawner.new in
        Answers result (map string_bytes words.now) before after }
{
    match read_words(alloc, words) {
        Ok(None) => {
            say(err, b"usage\n");
            statuses::USAGE
        }
        Ok(Some(command)) => match carry_out_on(
            rt, alloc, command, shelf, input, out, err, net, spawner,
        ) {
            Ok(status) => status,
            Err(refused) => report(alloc, &refused.failure, refused.name, err),
        },
        Err(_) => {
            say(err, b"out of memory\n");
            statuses::MEMORY
        }
    }
}
