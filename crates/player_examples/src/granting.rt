// Blocks that go out and come back.
use crate::card::{Card, Told, everywhere, in_buckets, in_rows};
use label::OldBlock;
use player::Command;
use std::test::*;

#[test]
fn a_number_at_the_bound(rt: HostRuntime) -> Result<(), Fail> {
    everywhere(
        rt.alloc(),
        1,
        1,
        &[
            (Command::Begin(16), Told::Refused(3)),
            (Command::Begin(u32::MAX), Told::Refused(3)),
            (Command::Read(16), Told::Refused(3)),
            (Command::Trim(16), Told::Refused(3)),
            (Command::Begin(15), Told::Granted(15, 0)),
            (Command::Commit(15), Told::Block(0)),
            (Command::Read(15), Told::Block(0)),
        ],
    )
}

#[test]
fn a_change_keeps_the_old_block(rt: HostRuntime) -> Result<(), Fail> {
    everywhere(
        rt.alloc(),
        2,
        1,
        &[
            (Command::Begin(7), Told::Granted(7, 0)),
            (Command::Commit(7), Told::Block(0)),
            (Command::Begin(7), Told::Granted(7, 1)),
            (Command::Read(7), Told::Block(0)),
            (Command::Begin(7), Told::Refused(4)),
            (Command::Trim(7), Told::Refused(4)),
            (Command::Tally, Told::Counts(0, 1, 1, 0)),
            (Command::Commit(7), Told::Block(1)),
            (Command::Read(7), Told::Block(1)),
            (Command::Tally, Told::Counts(1, 0, 1, 0)),
        ],
    )
}

// Undone, a change leaves the old block: its own goes back, or is lost.
#[test]
fn a_change_undone(rt: HostRuntime) -> Result<(), Fail> {
    everywhere(
        rt.alloc(),
        3,
        1,
        &[
            (Command::Begin(7), Told::Granted(7, 0)),
            (Command::Commit(7), Told::Block(0)),
            (Command::Begin(7), Told::Granted(7, 1)),
            (Command::Abandon(7), Told::Block(1)),
            (Command::Read(7), Told::Block(0)),
            (Command::Begin(7), Told::Granted(7, 2)),
            (Command::Condemn(7), Told::Block(2)),
            (Command::Read(7), Told::Block(0)),
            (Command::Tally, Told::Counts(1, 0, 1, 1)),
        ],
    )
}

// With its only block out, a busy number is busy first, and no block waits for any other.
#[test]
fn busy_before_no_block(rt: HostRuntime) -> Result<(), Fail> {
    everywhere(
        rt.alloc(),
        1,
        1,
        &[
            (Command::Begin(7), Told::Granted(7, 0)),
            (Command::Read(7), Told::NoBlock),
            (Command::Begin(16), Told::Refused(3)),
            (Command::Begin(7), Told::Refused(4)),
            (Command::Begin(8), Told::Refused(5)),
            (Command::Condemn(7), Told::Block(0)),
            (Command::Begin(7), Told::Refused(5)),
            (Command::Tally, Told::Counts(0, 0, 0, 1)),
        ],
    )
}

#[test]
fn a_full_map(rt: HostRuntime) -> Result<(), Fail> {
    let card = Card {
        limit: 16,
        blocks: 2,
        entries: 1,
        streams: 1,
    };
    in_rows::<OldBlock>(
        rt.alloc(),
        card,
        &[
            (Command::Begin(7), Told::Granted(7, 0)),
            (Command::Begin(8), Told::Refused(6)),
            (Command::Begin(7), Told::Refused(4)),
            (Command::Tally, Told::Counts(1, 1, 0, 0)),
            (Command::Abandon(7), Told::Block(0)),
            (Command::Begin(8), Told::Granted(8, 1)),
            (Command::Commit(8), Told::Block(1)),
            (Command::Begin(8), Told::Granted(8, 0)),
            (Command::Begin(7), Told::Refused(5)),
            (Command::Commit(8), Told::Block(0)),
            (Command::Begin(7), Told::Refused(6)),
        ],
    )
}

// Of the old line's even numbers below 256, four fit into two buckets.
// The odd ones have the other bucket too.
#[test]
fn full_buckets(rt: HostRuntime) -> Result<(), Fail> {
    let card = Card {
        limit: 16,
        blocks: 6,
        entries: 2,
        streams: 1,
    };
    in_buckets::<OldBlock>(
        rt.alloc(),
        card,
        &[
            (Command::Begin(0), Told::Granted(0, 0)),
            (Command::Begin(2), Told::Granted(2, 1)),
            (Command::Begin(4), Told::Granted(4, 2)),
            (Command::Begin(6), Told::Granted(6, 3)),
            (Command::Begin(8), Told::Refused(6)),
            (Command::Begin(1), Told::Granted(1, 4)),
            (Command::Commit(4), Told::Block(2)),
            (Command::Begin(8), Told::Refused(6)),
            (Command::Begin(4), Told::Granted(4, 5)),
            (Command::Begin(8), Told::Refused(5)),
            (Command::Abandon(0), Told::Block(0)),
            (Command::Begin(8), Told::Granted(8, 0)),
        ],
    )
}

// The front block goes out, and comes back behind those that wait.
#[test]
fn blocks_take_turns(rt: HostRuntime) -> Result<(), Fail> {
    everywhere(
        rt.alloc(),
        1,
        1,
        &[
            (Command::Begin(3), Told::Granted(3, 0)),
            (Command::Abandon(3), Told::Block(0)),
            (Command::Begin(9), Told::Granted(9, 0)),
            (Command::Abandon(9), Told::Block(0)),
        ],
    )?;
    everywhere(
        rt.alloc(),
        3,
        1,
        &[
            (Command::Begin(1), Told::Granted(1, 0)),
            (Command::Abandon(1), Told::Block(0)),
            (Command::Begin(2), Told::Granted(2, 1)),
            (Command::Condemn(2), Told::Block(1)),
            (Command::Begin(3), Told::Granted(3, 2)),
            (Command::Abandon(3), Told::Block(2)),
            (Command::Begin(4), Told::Granted(4, 0)),
            (Command::Abandon(4), Told::Block(0)),
            (Command::Begin(5), Told::Granted(5, 2)),
            (Command::Commit(5), Told::Block(2)),
            (Command::Begin(5), Told::Granted(5, 0)),
            (Command::Abandon(5), Told::Block(0)),
            (Command::Tally, Told::Counts(1, 0, 1, 1)),
        ],
    )
}

// Grants may end in any order; an ending of a number for which none is out asks for no call.
#[test]
fn grants_out_together(rt: HostRuntime) -> Result<(), Fail> {
    everywhere(
        rt.alloc(),
        3,
        1,
        &[
            (Command::Begin(1), Told::Granted(1, 0)),
            (Command::Begin(2), Told::Granted(2, 1)),
            (Command::Begin(3), Told::Granted(3, 2)),
            (Command::Commit(4), Told::NoCall),
            (Command::Commit(2), Told::Block(1)),
            (Command::Commit(2), Told::NoCall),
            (Command::Abandon(3), Told::Block(2)),
            (Command::Abandon(3), Told::NoCall),
            (Command::Condemn(1), Told::Block(0)),
            (Command::Condemn(1), Told::NoCall),
            (Command::Abandon(16), Told::NoCall),
            (Command::Tally, Told::Counts(1, 0, 1, 1)),
        ],
    )
}
