//! What comes on a post.

use crate::post_in_turn::{Answers, asked_in_turn};
use crate::post_threads::passed_on;
use dp_polled::Look;
use std::test::*;

const TEXT: &[u8] = b"pieces come in the order in which they were put, and none comes twice";

/// A thread takes what another puts, byte by byte, and nothing else.
#[test]
fn pieces_come_in_their_order(rt: HostRuntime) -> Result<(), Fail> {
    let Ok(taken) = passed_on(&rt, rt.alloc(), TEXT) else {
        return Err(Fail::from("memory"));
    };
    assert_eq!(rt; taken.as_slice(), TEXT);
    Ok(())
}

/// A look tells what is there, and a second piece is handed back while the first is in the slot.
#[test]
fn calls_in_turn(rt: HostRuntime) -> Result<(), Fail> {
    let Ok(answers) = asked_in_turn(&rt, rt.alloc()) else {
        return Err(Fail::from("memory"));
    };
    let expected = Answers {
        before: Some(Look::NotYet),
        is_full: true,
        first: Some(Look::Bytes(1)),
        second: Some(Look::Bytes(1)),
        spent: Some(Look::NotYet),
        waited: Some(0),
        last: Some(Look::End),
    };
    assert_eq!(rt; answers, expected);
    Ok(())
}
