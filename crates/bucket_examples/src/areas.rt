// Areas of right and of wrong size: their check, and what a map is over each.
use crate::blanks::blank;
use bucket::{Bucket, Mark, Slot};
use bucket_map::{BucketMap, check as check_size};
use checks::{check, check_eq};
use label::OldBlock;
use map::Denied;
use refusal::Refusal;
use std::mem::size_of;
use std::test::*;
use table::Found;

const TAKEN: Slot<OldBlock, u32> = Slot {
    used: true,
    tag: 2304,
    label: OldBlock(9),
    payload: 90,
};

// A bucket with something in each of its fields, which no call leaves so.
const STALE: Bucket<OldBlock, u32> = Bucket {
    filter: 7,
    moved: 3,
    mark: Mark {
        bucket: 1,
        parent: 2,
        slot: 3,
        joined: true,
    },
    s0: TAKEN,
    s1: TAKEN,
    s2: TAKEN,
    s3: TAKEN,
};

#[test]
fn powers_of_two_up_to_the_largest_are_right() -> Result<(), Fail> {
    check_eq(check_size(&[STALE; 1]), Ok(()))?;
    check_eq(check_size(&[STALE; 2]), Ok(()))?;
    check_eq(check_size(&[STALE; 4]), Ok(()))?;
    check_eq(check_size(&[STALE; 4096]), Ok(()))
}

#[test]
fn other_sizes_are_refused() -> Result<(), Fail> {
    let none: [Bucket<OldBlock, u32>; 0] = [];
    check_eq(check_size(&none), Err(Refusal::BadSize))?;
    check_eq(check_size(&[STALE; 3]), Err(Refusal::BadSize))?;
    check_eq(check_size(&[STALE; 6]), Err(Refusal::BadSize))?;
    check_eq(check_size(&[STALE; 4095]), Err(Refusal::BadSize))?;
    check_eq(check_size(&[STALE; 8192]), Err(Refusal::BadSize))
}

#[test]
fn a_bucket_has_64_bytes() -> Result<(), Fail> {
    check_eq(size_of::<Bucket<OldBlock, u32>>(), 64)
}

#[test]
fn making_a_map_empties_a_right_area() -> Result<(), Fail> {
    let mut area = [STALE; 4];
    let map = BucketMap::new(&mut area);
    check_eq(map.count(), 0)?;
    check_eq(map.find(OldBlock(9)).payload, None)?;
    let slot = Slot {
        used: false,
        ..TAKEN
    };
    let emptied = Bucket {
        s0: slot,
        s1: slot,
        s2: slot,
        s3: slot,
        ..blank(OldBlock(9), 90)
    };
    check_eq(area, [emptied; 4])
}

// A map over the area holds nothing and takes nothing.
fn holds_nothing(area: &mut [Bucket<OldBlock, u32>]) -> Result<(), Fail> {
    let mut map = BucketMap::new(area);
    check_eq(
        map.find(OldBlock(9)),
        Found {
            payload: None,
            read: 0,
        },
    )?;
    check(!map.ask(OldBlock(9)) && !map.ask(OldBlock(8)))?;
    check_eq(map.put(OldBlock(9), 1), Err(Denied::Full))?;
    check_eq(map.put(OldBlock(8), 1), Err(Denied::Full))?;
    check_eq(map.take(OldBlock(9)), None)?;
    check_eq(map.count(), 0)
}

#[test]
fn wrong_areas_hold_nothing_and_stay_untouched() -> Result<(), Fail> {
    let mut none: [Bucket<OldBlock, u32>; 0] = [];
    holds_nothing(&mut none)?;
    let mut area = [STALE; 3];
    holds_nothing(&mut area)?;
    check_eq(area, [STALE; 3])
}
