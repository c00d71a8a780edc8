// Streams opened and closed.
use crate::card::{Told, everywhere};
use crate::labels::{ONE, TWO};
use player::Command;
use std::test::*;

// The bound is 16, and there is room for one stream. The sums of the rows with `u32::MAX` pass 32 bits.
#[test]
fn an_open_refused(rt: HostRuntime) -> Result<(), Fail> {
    everywhere(
        rt.alloc(),
        1,
        1,
        &[
            (Command::Open(ONE, 0, 0), Told::Refused(11)),
            (Command::Open(ONE, 16, 0), Told::Refused(11)),
            (Command::Open(ONE, 0, 17), Told::Refused(11)),
            (Command::Open(ONE, 16, 1), Told::Refused(11)),
            (Command::Open(ONE, u32::MAX, 1), Told::Refused(11)),
            (Command::Open(ONE, 1, u32::MAX), Told::Refused(11)),
            (Command::Open(ONE, 2, u32::MAX), Told::Refused(11)),
            (Command::Open(ONE, u32::MAX, u32::MAX), Told::Refused(11)),
            (Command::Position(ONE), Told::Refused(9)),
            (Command::Open(ONE, 0, 16), Told::Opened),
            (Command::Open(ONE, 0, 16), Told::Refused(8)),
            (Command::Open(TWO, 3, 1), Told::Refused(12)),
            (Command::Position(ONE), Told::Stands(0, 16)),
            (Command::Position(TWO), Told::Refused(9)),
        ],
    )
}

// A bad length comes before an open stream, and both before a full map.
#[test]
fn the_order_of_an_open_refused(rt: HostRuntime) -> Result<(), Fail> {
    everywhere(
        rt.alloc(),
        1,
        1,
        &[
            (Command::Open(ONE, 15, 1), Told::Opened),
            (Command::Open(ONE, 15, 0), Told::Refused(11)),
            (Command::Open(ONE, 15, 2), Told::Refused(11)),
            (Command::Open(TWO, 0, 0), Told::Refused(11)),
            (Command::Open(TWO, 0, 17), Told::Refused(11)),
            (Command::Open(ONE, 0, 1), Told::Refused(8)),
            (Command::Open(TWO, 0, 1), Told::Refused(12)),
            (Command::Position(ONE), Told::Stands(15, 16)),
        ],
    )
}

#[test]
fn room_again_after_a_close(rt: HostRuntime) -> Result<(), Fail> {
    everywhere(
        rt.alloc(),
        1,
        1,
        &[
            (Command::Close(ONE), Told::Refused(9)),
            (Command::Open(ONE, 5, 2), Told::Opened),
            (Command::Open(TWO, 7, 2), Told::Refused(12)),
            (Command::Close(TWO), Told::Refused(9)),
            (Command::Close(ONE), Told::Closed(5)),
            (Command::Close(ONE), Told::Refused(9)),
            (Command::Position(ONE), Told::Refused(9)),
            (Command::Append(ONE), Told::Refused(9)),
            (Command::Open(TWO, 7, 2), Told::Opened),
            (Command::Position(TWO), Told::Stands(7, 9)),
            (Command::Open(ONE, 5, 2), Told::Refused(12)),
            (Command::Tally, Told::Counts(1, 0, 0, 0)),
        ],
    )
}

// A grant outlives its stream, and the stream opened again starts where it is told.
#[test]
fn opened_again(rt: HostRuntime) -> Result<(), Fail> {
    everywhere(
        rt.alloc(),
        2,
        1,
        &[
            (Command::Open(ONE, 3, 2), Told::Opened),
            (Command::Append(ONE), Told::Granted(3, 0)),
            (Command::Close(ONE), Told::Closed(4)),
            (Command::Open(ONE, 3, 1), Told::Opened),
            (Command::Position(ONE), Told::Stands(3, 4)),
            (Command::Append(ONE), Told::Refused(4)),
            (Command::Commit(3), Told::Block(0)),
            (Command::Append(ONE), Told::Granted(3, 1)),
            (Command::Commit(3), Told::Block(1)),
            (Command::Append(ONE), Told::Refused(10)),
            (Command::Tally, Told::Counts(1, 0, 1, 0)),
        ],
    )
}
