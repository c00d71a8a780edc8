// Streams written up to their end, and every refusal of an append.
use crate::card::{Card, Told, everywhere, in_buckets, in_rows};
use crate::labels::{ONE, TWO};
use label::OldBlock;
use player::Command;
use std::test::*;

// Number by number, up to the bound; a stream stands still where its append is refused.
#[test]
fn appends_up_to_the_end(rt: HostRuntime) -> Result<(), Fail> {
    everywhere(
        rt.alloc(),
        4,
        2,
        &[
            (Command::Open(ONE, 13, 3), Told::Opened),
            (Command::Append(ONE), Told::Granted(13, 0)),
            (Command::Position(ONE), Told::Stands(14, 16)),
            (Command::Commit(13), Told::Block(0)),
            (Command::Append(ONE), Told::Granted(14, 1)),
            (Command::Abandon(14), Told::Block(1)),
            (Command::Position(ONE), Told::Stands(15, 16)),
            (Command::Append(ONE), Told::Granted(15, 2)),
            (Command::Append(ONE), Told::Refused(10)),
            (Command::Position(ONE), Told::Stands(16, 16)),
            (Command::Condemn(15), Told::Block(2)),
            (Command::Append(ONE), Told::Refused(10)),
            (Command::Read(13), Told::Block(0)),
            (Command::Read(14), Told::NoBlock),
            (Command::Close(ONE), Told::Closed(16)),
            (Command::Tally, Told::Counts(2, 0, 1, 1)),
        ],
    )
}

// Each of two streams goes on by its own appends, also over the same numbers.
#[test]
fn two_streams(rt: HostRuntime) -> Result<(), Fail> {
    everywhere(
        rt.alloc(),
        4,
        2,
        &[
            (Command::Open(ONE, 1, 2), Told::Opened),
            (Command::Open(TWO, 1, 4), Told::Opened),
            (Command::Append(ONE), Told::Granted(1, 0)),
            (Command::Commit(1), Told::Block(0)),
            (Command::Append(TWO), Told::Granted(1, 1)),
            (Command::Commit(1), Told::Block(1)),
            (Command::Append(TWO), Told::Granted(2, 2)),
            (Command::Position(ONE), Told::Stands(2, 3)),
            (Command::Position(TWO), Told::Stands(3, 5)),
            (Command::Close(ONE), Told::Closed(2)),
            (Command::Append(TWO), Told::Granted(3, 3)),
            (Command::Read(1), Told::Block(1)),
        ],
    )
}

// In each row more than one refusal applies, and the first of 9, 10, 4 and 5 is told.
#[test]
fn the_order_of_an_append_refused(rt: HostRuntime) -> Result<(), Fail> {
    everywhere(
        rt.alloc(),
        2,
        2,
        &[
            (Command::Append(ONE), Told::Refused(9)),
            (Command::Open(ONE, 3, 1), Told::Opened),
            (Command::Append(ONE), Told::Granted(3, 0)),
            (Command::Begin(4), Told::Granted(4, 1)),
            (Command::Append(TWO), Told::Refused(9)),
            (Command::Append(ONE), Told::Refused(10)),
            (Command::Position(ONE), Told::Stands(4, 4)),
            (Command::Open(TWO, 3, 2), Told::Opened),
            (Command::Append(TWO), Told::Refused(4)),
            (Command::Position(TWO), Told::Stands(3, 5)),
            (Command::Commit(3), Told::Block(0)),
            (Command::Append(TWO), Told::Refused(5)),
            (Command::Position(TWO), Told::Stands(3, 5)),
            (Command::Abandon(4), Told::Block(1)),
            (Command::Append(TWO), Told::Granted(3, 1)),
            (Command::Position(TWO), Told::Stands(4, 5)),
            (Command::Read(3), Told::Block(0)),
        ],
    )
}

// With one row, held by 3, the stream's numbers are full: after an end and an empty pool, before none.
#[test]
fn an_append_of_what_has_no_room(rt: HostRuntime) -> Result<(), Fail> {
    let card = Card {
        limit: 16,
        blocks: 2,
        entries: 1,
        streams: 1,
    };
    in_rows::<OldBlock>(
        rt.alloc(),
        card,
        &[
            (Command::Open(ONE, 7, 2), Told::Opened),
            (Command::Begin(3), Told::Granted(3, 0)),
            (Command::Append(ONE), Told::Refused(6)),
            (Command::Position(ONE), Told::Stands(7, 9)),
            (Command::Commit(3), Told::Block(0)),
            (Command::Begin(3), Told::Granted(3, 1)),
            (Command::Append(ONE), Told::Refused(5)),
            (Command::Abandon(3), Told::Block(1)),
            (Command::Append(ONE), Told::Refused(6)),
            (Command::Trim(3), Told::Block(0)),
            (Command::Append(ONE), Told::Granted(7, 1)),
            (Command::Abandon(7), Told::Block(1)),
            (Command::Position(ONE), Told::Stands(8, 9)),
            (Command::Append(ONE), Told::Granted(8, 0)),
            (Command::Commit(8), Told::Block(0)),
            (Command::Append(ONE), Told::Refused(10)),
        ],
    )
}

// Bucket 0 holds 0, 2, 4 and 6, so 8 has no room, and the stream waits at it.
#[test]
fn an_append_to_full_buckets(rt: HostRuntime) -> Result<(), Fail> {
    let card = Card {
        limit: u32::MAX,
        blocks: 6,
        entries: 2,
        streams: 1,
    };
    in_buckets::<OldBlock>(
        rt.alloc(),
        card,
        &[
            (Command::Open(ONE, 8, 2), Told::Opened),
            (Command::Begin(0), Told::Granted(0, 0)),
            (Command::Begin(2), Told::Granted(2, 1)),
            (Command::Begin(4), Told::Granted(4, 2)),
            (Command::Begin(6), Told::Granted(6, 3)),
            (Command::Append(ONE), Told::Refused(6)),
            (Command::Position(ONE), Told::Stands(8, 10)),
            (Command::Abandon(2), Told::Block(1)),
            (Command::Append(ONE), Told::Granted(8, 4)),
            (Command::Append(ONE), Told::Granted(9, 5)),
        ],
    )
}

// The largest bound: the last number is 4,294,967,294, and the end of a stream may be the bound itself.
#[test]
fn the_last_number(rt: HostRuntime) -> Result<(), Fail> {
    let card = Card {
        limit: u32::MAX,
        blocks: 1,
        entries: 1,
        streams: 1,
    };
    in_rows::<OldBlock>(
        rt.alloc(),
        card,
        &[
            (Command::Open(ONE, 1, u32::MAX), Told::Refused(11)),
            (Command::Open(ONE, u32::MAX, 1), Told::Refused(11)),
            (Command::Open(ONE, 0, u32::MAX), Told::Opened),
            (Command::Close(ONE), Told::Closed(0)),
            (Command::Open(ONE, u32::MAX - 1, 1), Told::Opened),
            (Command::Append(ONE), Told::Granted(u32::MAX - 1, 0)),
            (Command::Position(ONE), Told::Stands(u32::MAX, u32::MAX)),
            (Command::Append(ONE), Told::Refused(10)),
            (Command::Close(ONE), Told::Closed(u32::MAX)),
        ],
    )
}
