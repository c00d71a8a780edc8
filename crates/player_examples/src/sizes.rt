// Maps over areas of wrong size, which hold nothing.
use crate::card::{Card, Told, everywhere, in_buckets, in_rows};
use crate::labels::{ONE, TWO};
use label::OldBlock;
use player::Command;
use std::test::*;

// No stream fits an area of no row or of 257, and the blocks are as ever.
#[test]
fn a_stream_map_of_wrong_size(rt: HostRuntime) -> Result<(), Fail> {
    for streams in [0, 257] {
        everywhere(
            rt.alloc(),
            1,
            streams,
            &[
                (Command::Open(ONE, 0, 0), Told::Refused(11)),
                (Command::Open(ONE, 0, 1), Told::Refused(12)),
                (Command::Open(TWO, 3, 13), Told::Refused(12)),
                (Command::Append(ONE), Told::Refused(9)),
                (Command::Close(ONE), Told::Refused(9)),
                (Command::Position(ONE), Told::Refused(9)),
                (Command::Begin(3), Told::Granted(3, 0)),
                (Command::Commit(3), Told::Block(0)),
                (Command::Tally, Told::Counts(0, 0, 1, 0)),
            ],
        )?;
    }
    Ok(())
}

const NO_NUMBER: [(Command, Told); 8] = [
    (Command::Begin(0), Told::Refused(6)),
    (Command::Begin(16), Told::Refused(3)),
    (Command::Open(ONE, 9, 2), Told::Opened),
    (Command::Append(ONE), Told::Refused(6)),
    (Command::Position(ONE), Told::Stands(9, 11)),
    (Command::Read(9), Told::NoBlock),
    (Command::Trim(9), Told::NoBlock),
    (Command::Tally, Told::Counts(2, 0, 0, 0)),
];

// No number fits an area of no row or of 257, of no bucket or of three.
#[test]
fn a_block_map_of_wrong_size(rt: HostRuntime) -> Result<(), Fail> {
    let card = Card {
        limit: 16,
        blocks: 2,
        entries: 0,
        streams: 1,
    };
    let large = Card {
        entries: 257,
        ..card
    };
    let three = Card { entries: 3, ..card };
    in_rows::<OldBlock>(rt.alloc(), card, &NO_NUMBER)?;
    in_rows::<OldBlock>(rt.alloc(), large, &NO_NUMBER)?;
    in_buckets::<OldBlock>(rt.alloc(), card, &NO_NUMBER)?;
    in_buckets::<OldBlock>(rt.alloc(), three, &NO_NUMBER)
}
