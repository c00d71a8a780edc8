// Labels of the new line and of streams, payloads of several types, and lists of changes, beside a straight map.
use crate::blanks::{blank, blank_row};
use crate::puts::adds;
use bucket_map::{BucketMap, Change};
use checks::{check, check_eq};
use insertion::Stored;
use label::{Label, NewBlock, OldBlock, StreamLabel};
use map::{Denied, Map};
use std::test::*;
use straight::StraightMap;
use table::Found;

#[derive(Clone, Copy, PartialEq, Eq, Debug)]
struct Span {
    first: u32,
    count: u16,
}

fn three_from(first: u32) -> Span {
    Span { first, count: 3 }
}

fn spanned(n: u32) -> (NewBlock, Span) {
    (NewBlock(n), three_from(n))
}

// Of two buckets, 2, 3, 5, 6 and 7 have both, 0 and 4 the one at 0 twice, and 1, 9 and 10 the other twice.
fn fill(map: &mut BucketMap<NewBlock, Span>) -> Result<(), Fail> {
    adds(map, [2, 3, 5, 6].map(spanned))?;
    check_eq(map.put(NewBlock(0), three_from(0)), Ok(Stored::Added(1)))?;
    adds(map, [1, 9, 10].map(spanned))?;
    check_eq(map.put(NewBlock(7), three_from(7)), Err(Denied::Full))?;
    check_eq(map.put(NewBlock(4), three_from(4)), Err(Denied::Full))?;
    check_eq(map.count(), 8)
}

#[test]
fn new_line_labels_with_spans() -> Result<(), Fail> {
    let mut area = [blank(NewBlock(0), three_from(0)); 2];
    let mut map = BucketMap::new(&mut area);
    fill(&mut map)?;
    check_eq(
        map.find(NewBlock(2)),
        Found {
            payload: Some(three_from(2)),
            read: 2,
        },
    )?;
    check_eq(map.take(NewBlock(0)), Some(three_from(0)))?;
    check_eq(
        map.put(NewBlock(3), three_from(8)),
        Ok(Stored::Replaced(three_from(3))),
    )?;
    check_eq(map.put(NewBlock(7), three_from(7)), Ok(Stored::Added(0)))
}

fn stream(session: u8) -> StreamLabel {
    StreamLabel {
        port: 1,
        channel: 2,
        session,
    }
}

fn puts_four<M: Map<StreamLabel, u8>>(map: &mut M) -> Result<(), Fail> {
    for session in 0..4 {
        check(map.ask(stream(session)))?;
        check_eq(map.put(stream(session), 200 + session), Ok(None))?;
    }
    check_eq(map.count(), 4)
}

// A map of four labels, by its interface alone.
fn serves_four_streams<M: Map<StreamLabel, u8>>(map: &mut M) -> Result<(), Fail> {
    puts_four(map)?;
    check(!map.ask(stream(4)) && map.ask(stream(3)))?;
    check_eq(map.put(stream(4), 1), Err(Denied::Full))?;
    check_eq(map.put(stream(3), 1), Ok(Some(203)))?;
    check_eq(map.take(stream(2)), Some(202))?;
    check_eq(map.take(stream(2)), None)?;
    check_eq(map.put(stream(4), 2), Ok(None))?;
    check_eq(map.find(stream(4)), Some(2))?;
    check_eq(map.find(stream(2)), None)?;
    check_eq(map.count(), 4)
}

const NO_STREAM: StreamLabel = StreamLabel {
    port: 0,
    channel: 0,
    session: 0,
};

#[test]
fn one_bucket_serves_streams_as_four_rows_do() -> Result<(), Fail> {
    let mut area = [blank(NO_STREAM, 0); 1];
    serves_four_streams(&mut BucketMap::new(&mut area))?;
    let mut rows = [blank_row(NO_STREAM, 0); 4];
    serves_four_streams(&mut StraightMap::new(&mut rows))
}

// Of two buckets, sessions 0, 1, 3 and 6 have the one at 0 first, and session 2 has it twice.
#[test]
fn a_stream_moves_for_another() -> Result<(), Fail> {
    let mut area = [blank(NO_STREAM, 0u8); 2];
    let mut map = BucketMap::new(&mut area);
    adds(
        &mut map,
        [0, 1, 3, 6].map(|session| (stream(session), session)),
    )?;
    check_eq(map.put(stream(2), 2), Ok(Stored::Added(1)))?;
    check_eq(map.find(stream(0)).read, 2)?;
    check_eq(map.find(stream(0)).payload, Some(0))?;
    check_eq(map.find(stream(2)).read, 1)?;
    check_eq(map.take(stream(0)), Some(0))?;
    check_eq(map.count(), 4)
}

// A map of room for a pair, by its interface alone.
fn serves_a_pair<L: Label, M: Map<L, Span>>(map: &mut M, a: L, b: L) -> Result<(), Fail> {
    check_eq(map.put(a, three_from(1)), Ok(None))?;
    check_eq(map.put(b, three_from(2)), Ok(None))?;
    check_eq(map.put(a, three_from(3)), Ok(Some(three_from(1))))?;
    check_eq(map.count(), 2)?;
    check_eq(map.take(a), Some(three_from(3)))?;
    check_eq(map.find(a), None)?;
    check_eq(map.find(b), Some(three_from(2)))
}

#[test]
fn labels_of_every_kind_by_the_interface() -> Result<(), Fail> {
    let mut new = [blank(NewBlock(0), three_from(0)); 2];
    serves_a_pair(&mut BucketMap::new(&mut new), NewBlock(2), NewBlock(9))?;
    let mut old = [blank(OldBlock(0), three_from(0)); 4];
    serves_a_pair(&mut BucketMap::new(&mut old), OldBlock(2), OldBlock(9))?;
    let mut streams = [blank(NO_STREAM, three_from(0)); 1];
    serves_a_pair(&mut BucketMap::new(&mut streams), stream(2), stream(9))
}

// Makes one change on a straight map. A put may be denied.
fn change_straight<L: Label>(
    map: &mut StraightMap<L, u32>,
    change: Change<L, u32>,
) -> Result<(), Denied> {
    match change {
        Change::Put(label, payload) => {
            map.put(label, payload)?;
        }
        Change::Take(label) => {
            map.take(label);
        }
    }
    Ok(())
}

// Makes the changes on a straight map, and answers how many puts it denied.
fn apply_straight<L: Label>(map: &mut StraightMap<L, u32>, changes: &[Change<L, u32>]) -> usize {
    changes
        .iter()
        .map(|change| change_straight(map, *change))
        .filter(|made| made.is_err())
        .count()
}

// Both maps have the same pairs with the labels.
fn agree<L: Label>(
    map: &BucketMap<L, u32>,
    plain: &StraightMap<L, u32>,
    labels: &[L],
) -> Result<(), Fail> {
    for label in labels {
        check_eq(map.find(*label).payload, plain.find(*label))?;
    }
    check_eq(map.count(), plain.count())
}

const NEW_CHANGES: [Change<NewBlock, u32>; 9] = [
    Change::Put(NewBlock(1), 10),
    Change::Put(NewBlock(2), 20),
    Change::Put(NewBlock(3), 30),
    Change::Take(NewBlock(9)),
    Change::Put(NewBlock(4), 40),
    Change::Put(NewBlock(5), 50),
    Change::Put(NewBlock(2), 21),
    Change::Take(NewBlock(3)),
    Change::Put(NewBlock(6), 60),
];

const NEW_LABELS: [NewBlock; 7] = [
    NewBlock(1),
    NewBlock(2),
    NewBlock(3),
    NewBlock(4),
    NewBlock(5),
    NewBlock(6),
    NewBlock(9),
];

#[test]
fn changes_on_one_bucket_and_on_four_rows() -> Result<(), Fail> {
    let mut area = [blank(NewBlock(0), 0); 1];
    let mut map = BucketMap::new(&mut area);
    let mut rows = [blank_row(NewBlock(0), 0); 4];
    let mut plain = StraightMap::new(&mut rows);
    check_eq(map.apply(&NEW_CHANGES), 1)?;
    check_eq(apply_straight(&mut plain, &NEW_CHANGES), 1)?;
    check_eq(map.count(), 4)?;
    agree(&map, &plain, &NEW_LABELS)
}

const EARLY_CHANGES: [Change<OldBlock, u32>; 5] = [
    Change::Put(OldBlock(256), 1),
    Change::Put(OldBlock(0), 2),
    Change::Put(OldBlock(2), 3),
    Change::Put(OldBlock(4), 4),
    Change::Put(OldBlock(6), 5),
];

const LATE_CHANGES: [Change<OldBlock, u32>; 4] = [
    Change::Put(OldBlock(256), 7),
    Change::Take(OldBlock(4)),
    Change::Put(OldBlock(8), 8),
    Change::Take(OldBlock(768)),
];

const OLD_LABELS: [OldBlock; 7] = [
    OldBlock(256),
    OldBlock(0),
    OldBlock(2),
    OldBlock(4),
    OldBlock(6),
    OldBlock(8),
    OldBlock(768),
];

// 8 does not fit beside 0, 2, 4 and 6, and fits once 4 is taken out; the straight map has room throughout.
#[test]
fn changes_on_two_buckets_but_for_a_full_put() -> Result<(), Fail> {
    let mut area = [blank(OldBlock(0), 0); 2];
    let mut map = BucketMap::new(&mut area);
    let mut rows = [blank_row(OldBlock(0), 0); 256];
    let mut plain = StraightMap::new(&mut rows);
    check_eq(map.apply(&EARLY_CHANGES), 0)?;
    check_eq(apply_straight(&mut plain, &EARLY_CHANGES), 0)?;
    check_eq(map.apply(&[Change::Put(OldBlock(8), 6)]), 1)?;
    agree(&map, &plain, &OLD_LABELS)?;
    check_eq(map.apply(&LATE_CHANGES), 0)?;
    check_eq(apply_straight(&mut plain, &LATE_CHANGES), 0)?;
    agree(&map, &plain, &OLD_LABELS)?;
    check_eq(map.apply(&[]), 0)
}
