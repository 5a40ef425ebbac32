//! What the calls on a desk are answered.

use crate::desk_in_turn::{Answers, served_in_turn};
use crate::desk_threads::served_by_two;
use dp_registry::{AdmitReply, Entry, Refusal};
use std::marker::Brand;
use std::sync::ledger::Blank;
use std::test::*;

/// Two clerks serve in two threads and meet: a stop then succeeds, and the journal has 7 entries.
#[test]
fn two_threads(rt: HostRuntime) -> Result<(), Fail> {
    let answer = served_by_two::<_, Brand, Brand, Brand>(
        &rt,
        rt.alloc(),
        Blank::new(65536),
        Blank::new(65536),
        Blank::new(65536),
    );
    let Ok((stopped, registry)) = answer else {
        return Err(Fail::from("memory"));
    };
    assert!(rt; stopped.is_ok());
    assert_eq!(rt; registry.journal().len(), 7);
    Ok(())
}

/// Whether the three calls were refused, each for its own reason.
fn are_refused(answers: &Answers) -> bool {
    let is_taken = match &answers.taken {
        Err(Refusal::Taken { host, port }) => host.as_slice() == b"10.0.0.1".as_slice()
            && *port == 9000,
        _ => false,
    };
    is_taken
        && matches!(answers.busy, Err(Refusal::Busy { session: 1 }))
        && matches!(answers.stopped, Err(Refusal::NotYours))
}

/// Whether the journal has each call once, in the order of the calls, with its reply.
fn has_each_call(journal: &[Entry]) -> bool {
    match journal {
        [
            Entry::Register { reply: 0, .. },
            Entry::Register { reply: 1, .. },
            Entry::Admit {
                reply: AdmitReply::Given { session: 1, .. },
                ..
            },
            Entry::Admit {
                reply: AdmitReply::Busy(1),
                ..
            },
            Entry::Dismiss { session: 1 },
            Entry::Admit {
                reply: AdmitReply::Given {
                    session: 2,
                    host,
                    port: 9000,
                },
                ..
            },
            Entry::Stop { reply: 3, .. },
            Entry::Dismiss { session: 2 },
        ] => host.as_slice() == b"10.0.0.1".as_slice(),
        _ => false,
    }
}

/// Two clerks ask for one key in turn: a registration, an admission and a stop of the second are refused, and the
/// journal has 8 entries.
#[test]
fn two_in_turn(rt: HostRuntime) -> Result<(), Fail> {
    let answer = served_in_turn::<_, Brand, Brand, Brand>(
        &rt,
        rt.alloc(),
        Blank::new(65536),
        Blank::new(65536),
        Blank::new(65536),
    );
    let Ok((answers, registry)) = answer else {
        return Err(Fail::from("memory"));
    };
    assert!(rt; are_refused(&answers));
    assert!(rt; has_each_call(registry.journal()));
    Ok(())
}
