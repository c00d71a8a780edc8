// The straight map over right areas and wrong ones.
use checks::{check, check_eq};
use label::{OldBlock, StreamLabel};
use map::{Denied, Map};
use refusal::Refusal;
use std::test::*;
use straight::{Row, StraightMap};

#[derive(Clone, Copy, PartialEq, Eq, Debug)]
struct Span {
    first: u32,
    count: u16,
}

const BLANK: Row<OldBlock, u32> = Row {
    used: false,
    label: OldBlock(0),
    payload: 0,
};

const USED: Row<OldBlock, u32> = Row {
    used: true,
    label: OldBlock(9),
    payload: 90,
};

const QUIET: Row<StreamLabel, Span> = Row {
    used: false,
    label: StreamLabel {
        port: 0,
        channel: 0,
        session: 0,
    },
    payload: Span { first: 0, count: 0 },
};

#[test]
fn checked_sizes() -> Result<(), Fail> {
    check_eq(straight::check(&[BLANK; 0]), Err(Refusal::BadSize))?;
    check_eq(straight::check(&[BLANK; 1]), Ok(()))?;
    check_eq(straight::check(&[BLANK; 256]), Ok(()))?;
    check_eq(straight::check(&[BLANK; 257]), Err(Refusal::BadSize))
}

#[test]
fn one_row() -> Result<(), Fail> {
    let mut area = [USED; 1];
    let mut map = StraightMap::new(&mut area);
    check_eq(map.count(), 0)?;
    check_eq(map.find(OldBlock(9)), None)?;
    check_eq(map.put(OldBlock(5), 50), Ok(None))?;
    check_eq(map.put(OldBlock(5), 51), Ok(Some(50)))?;
    check(map.ask(OldBlock(5)) && !map.ask(OldBlock(6)))?;
    check_eq(map.put(OldBlock(6), 60), Err(Denied::Full))?;
    check_eq(map.find(OldBlock(5)), Some(51))?;
    check_eq(map.take(OldBlock(5)), Some(51))?;
    check_eq(map.take(OldBlock(5)), None)?;
    check(!area[0].used && area[0].payload == 51)
}

#[test]
fn first_unused_row_is_reused() -> Result<(), Fail> {
    let mut area = [BLANK; 3];
    let mut map = StraightMap::new(&mut area);
    for n in 1..=3 {
        check_eq(map.put(OldBlock(n), 10 * n), Ok(None))?;
    }
    check_eq(map.take(OldBlock(2)), Some(20))?;
    check_eq(map.take(OldBlock(1)), Some(10))?;
    check_eq(map.put(OldBlock(4), 40), Ok(None))?;
    check_eq(map.count(), 2)?;
    check(area[0].used && area[0].payload == 40)?;
    check(!area[1].used && area[1].payload == 20)?;
    check(area[2].used && area[2].payload == 30)
}

#[test]
fn all_rows_of_the_largest_area() -> Result<(), Fail> {
    let mut area = [USED; 256];
    let mut map = StraightMap::new(&mut area);
    for n in 0..256 {
        check_eq(map.put(OldBlock(n), 2 * n), Ok(None))?;
    }
    check_eq(map.put(OldBlock(256), 0), Err(Denied::Full))?;
    check_eq(map.put(OldBlock(255), 1), Ok(Some(510)))?;
    check_eq(map.count(), 256)
}

#[test]
fn spans_by_stream() -> Result<(), Fail> {
    let mut area = [QUIET; 3];
    let mut map = StraightMap::new(&mut area);
    let a = StreamLabel {
        port: 1,
        channel: 2,
        session: 3,
    };
    let b = StreamLabel {
        port: 3,
        channel: 2,
        session: 1,
    };
    let two = Span { first: 8, count: 2 };
    let one = Span {
        first: 10,
        count: 1,
    };
    check_eq(map.put(a, two), Ok(None))?;
    check_eq(map.put(b, one), Ok(None))?;
    check_eq(map.find(a), Some(two))?;
    check_eq(map.take(b), Some(one))?;
    check_eq(map.count(), 1)
}

// A map by its interface alone, which takes nothing.
fn refuses<M: Map<OldBlock, u32>>(map: &mut M) -> Result<(), Fail> {
    check(!map.ask(OldBlock(9)))?;
    check_eq(map.put(OldBlock(9), 1), Err(Denied::Full))?;
    check_eq(map.find(OldBlock(9)), None)?;
    check_eq(map.take(OldBlock(9)), None)?;
    check_eq(map.count(), 0)
}

#[test]
fn wrong_areas_hold_nothing() -> Result<(), Fail> {
    let mut none = [BLANK; 0];
    refuses(&mut StraightMap::new(&mut none))?;
    let mut area = [USED; 257];
    refuses(&mut StraightMap::new(&mut area))?;
    check(area[0].used && area[0].payload == 90)?;
    check(area[256].used && area[256].payload == 90)
}
