// Two players that are asked the same.
// One is over two buckets of the old line, one over eight rows of the new line.
use crate::card::{BucketCard, Card, InBuckets, RowCard, counts, grant};
use crate::labels::ONE;
use checks::check_eq;
use label::{NewBlock, OldBlock};
use player::{Command, Notebook, play_both};
use refusal::Refusal;
use rules::{Answer, Call};
use std::alloc::Global;
use std::test::*;

const BUCKETS: Card = Card {
    limit: u32::MAX,
    blocks: 8,
    entries: 2,
    streams: 1,
};

const ROWS: Card = Card {
    entries: 8,
    ..BUCKETS
};

// The list is asked of both, and they have these logs then.
fn both(
    heap: Global,
    commands: &[Command],
    log: &[(Call, Answer)],
    other_log: &[(Call, Answer)],
) -> Result<(), Fail> {
    let mut buckets = BucketCard::<OldBlock>::new(heap, BUCKETS)?;
    let mut rows = RowCard::<NewBlock>::new(heap, ROWS)?;
    let mut one = buckets.player(Notebook::new(heap))?;
    match rows.player(Notebook::new(heap)) {
        Ok(mut other) => {
            let played = play_both(&mut one, &mut other, commands);
            let (_service, found) = one.finish();
            let (_service, other_found) = other.finish();
            played?;
            check_eq(found.as_slice(), log)?;
            check_eq(other_found.as_slice(), other_log)
        }
        Err(e) => {
            let _done = one.finish();
            Err(e)
        }
    }
}

#[test]
fn both_answer_the_same(rt: HostRuntime) -> Result<(), Fail> {
    let number = ONE.number();
    let log = [
        (Call::Open(number, 0, 2), Answer::Opened),
        (Call::Append(number), Answer::Granted(grant(0, 0))),
        (Call::Commit(grant(0, 0)), Answer::Block(Some(0))),
        (Call::Append(number), Answer::Granted(grant(1, 1))),
        (Call::Append(number), Answer::Refused(Refusal::StreamAtEnd)),
        (Call::Begin(1), Answer::Refused(Refusal::NumberBusy)),
        (Call::Condemn(grant(1, 1)), Answer::Block(Some(1))),
        (Call::Trim(0), Answer::Block(Some(0))),
        (
            Call::Begin(u32::MAX),
            Answer::Refused(Refusal::NumberTooLarge),
        ),
        (Call::Close(number), Answer::Closed(2)),
        (Call::Tally, Answer::Counts(counts(7, 0, 0, 1))),
    ];
    let commands = [
        Command::Open(ONE, 0, 2),
        Command::Append(ONE),
        Command::Commit(0),
        Command::Append(ONE),
        Command::Append(ONE),
        Command::Begin(1),
        Command::Condemn(1),
        Command::Abandon(1),
        Command::Trim(0),
        Command::Begin(u32::MAX),
        Command::Close(ONE),
        Command::Tally,
    ];
    both(rt.alloc(), &commands, &log, &log)
}

// The fifth even number has no room in the buckets, but a row. From there on the two go apart.
#[test]
fn one_is_full_before_the_other(rt: HostRuntime) -> Result<(), Fail> {
    let commands = [
        Command::Begin(0),
        Command::Begin(2),
        Command::Begin(4),
        Command::Begin(6),
        Command::Begin(8),
        Command::Commit(8),
        Command::Begin(1),
    ];
    let even = |i: u32| (Call::Begin(2 * i), Answer::Granted(grant(2 * i, i)));
    both(
        rt.alloc(),
        &commands,
        &[
            even(0),
            even(1),
            even(2),
            even(3),
            (Call::Begin(8), Answer::Refused(Refusal::BlockMapFull)),
            (Call::Begin(1), Answer::Granted(grant(1, 4))),
        ],
        &[
            even(0),
            even(1),
            even(2),
            even(3),
            even(4),
            (Call::Commit(grant(8, 4)), Answer::Block(Some(4))),
            (Call::Begin(1), Answer::Granted(grant(1, 5))),
        ],
    )
}
