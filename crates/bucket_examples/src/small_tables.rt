// Old-line labels in tables of one and of two buckets, slot by slot.
use crate::blanks::blank;
use crate::puts::adds;
use crate::upkeep::slots;
use bucket::{Bucket, Slot};
use bucket_map::BucketMap;
use checks::{check, check_eq, check_ne};
use insertion::Stored;
use label::OldBlock;
use map::Denied;
use std::test::*;
use table::Found;

fn pair_of_blanks() -> [Bucket<OldBlock, u32>; 2] {
    [blank(OldBlock(0), 0); 2]
}

// A label with ten times its number for its payload.
fn tenfold(number: u32) -> (OldBlock, u32) {
    (OldBlock(number), number.wrapping_mul(10))
}

// The slot of such a label.
fn held(number: u32, tag: u16) -> Slot<OldBlock, u32> {
    let (label, payload) = tenfold(number);
    Slot {
        used: true,
        tag,
        label,
        payload,
    }
}

// The slot of such a label once it is taken out.
fn left(number: u32, tag: u16) -> Slot<OldBlock, u32> {
    Slot {
        used: false,
        ..held(number, tag)
    }
}

fn found(payload: Option<u32>, read: u8) -> Found<u32> {
    Found { payload, read }
}

// A bucket at rest: its slots, and how many labels that it is the first bucket of lie elsewhere, with their masks together.
fn at_rest(s: [Slot<OldBlock, u32>; 4], moved: u16, filter: u64) -> Bucket<OldBlock, u32> {
    let [s0, s1, s2, s3] = s;
    Bucket {
        filter,
        moved,
        s0,
        s1,
        s2,
        s3,
        ..blank(OldBlock(0), 0)
    }
}

#[test]
fn a_fifth_label_goes_to_its_second_bucket() -> Result<(), Fail> {
    let mut area = pair_of_blanks();
    let mut map = BucketMap::new(&mut area);
    adds(&mut map, [0, 2, 4, 6, 256].map(tenfold))?;
    let first = [held(0, 0), held(2, 512), held(4, 1024), held(6, 1536)];
    let second = [held(256, 0), left(0, 0), left(0, 0), left(0, 0)];
    check_eq(area, [at_rest(first, 1, 1), at_rest(second, 0, 0)])
}

#[test]
fn a_label_moves_to_its_second_bucket_for_another() -> Result<(), Fail> {
    let mut area = pair_of_blanks();
    let mut map = BucketMap::new(&mut area);
    adds(&mut map, [256, 0, 2, 4].map(tenfold))?;
    check_eq(map.put(OldBlock(6), 60), Ok(Stored::Added(1)))?;
    let first = [held(6, 1536), held(0, 0), held(2, 512), held(4, 1024)];
    let second = [held(256, 0), left(0, 0), left(0, 0), left(0, 0)];
    check_eq(area, [at_rest(first, 1, 1), at_rest(second, 0, 0)])
}

// The area once the labels are put, and no more is asked.
fn area_with(numbers: &[u32]) -> [Bucket<OldBlock, u32>; 2] {
    let mut area = pair_of_blanks();
    let mut map = BucketMap::new(&mut area);
    for n in numbers {
        let (label, payload) = tenfold(*n);
        let _ = map.put(label, payload);
    }
    area
}

fn is_full_for_eight(numbers: &[u32]) -> Result<(), Fail> {
    let mut area = pair_of_blanks();
    let mut map = BucketMap::new(&mut area);
    for n in numbers {
        let (label, payload) = tenfold(*n);
        check(map.ask(label))?;
        check_ne(map.put(label, payload), Err(Denied::Full))?;
    }
    check(!map.ask(OldBlock(8)))?;
    check_eq(map.put(OldBlock(8), 80), Err(Denied::Full))?;
    check(!map.ask(OldBlock(8)))?;
    check_eq(map.count(), 5)?;
    check_eq(area, area_with(numbers))
}

#[test]
fn a_full_answer_leaves_the_area_as_it_was() -> Result<(), Fail> {
    is_full_for_eight(&[0, 2, 4, 6, 256])?;
    is_full_for_eight(&[256, 0, 2, 4, 6])
}

#[test]
fn a_yes_leaves_the_area_as_it_was() -> Result<(), Fail> {
    let mut area = pair_of_blanks();
    let mut map = BucketMap::new(&mut area);
    adds(&mut map, [256, 0, 2, 4].map(tenfold))?;
    check(map.ask(OldBlock(6)))?;
    check(map.ask(OldBlock(1)))?;
    check(map.ask(OldBlock(256)))?;
    check_eq(area, area_with(&[256, 0, 2, 4]))
}

// The filter has the mask of 768, as it has that of 256.
#[test]
fn a_filter_sends_a_find_on_while_a_label_is_elsewhere() -> Result<(), Fail> {
    let mut area = pair_of_blanks();
    let mut map = BucketMap::new(&mut area);
    adds(&mut map, [0, 2, 4, 6, 256].map(tenfold))?;
    check_eq(map.find(OldBlock(768)), found(None, 2))?;
    check_eq(map.take(OldBlock(256)), Some(2560))?;
    check_eq(map.find(OldBlock(768)), found(None, 1))?;
    check_eq(map.find(OldBlock(256)), found(None, 1))?;
    check_eq(area[0].moved, 0)?;
    check_eq(area[0].filter, 0)
}

#[test]
fn a_filter_without_the_mask_ends_a_find() -> Result<(), Fail> {
    let mut area = pair_of_blanks();
    let mut map = BucketMap::new(&mut area);
    adds(&mut map, [0, 2, 4, 6, 256].map(tenfold))?;
    check_eq(map.find(OldBlock(131328)), found(None, 1))?;
    check_eq(map.find(OldBlock(256)), found(Some(2560), 2))?;
    check_eq(map.find(OldBlock(6)), found(Some(60), 1))
}

#[test]
fn one_bucket_has_room_for_four() -> Result<(), Fail> {
    let mut area = [blank(OldBlock(0), 0); 1];
    let mut map = BucketMap::new(&mut area);
    adds(&mut map, [1, 256, 3, 65536].map(tenfold))?;
    check(!map.ask(OldBlock(5)))?;
    check_eq(map.put(OldBlock(5), 50), Err(Denied::Full))?;
    check_eq(map.find(OldBlock(5)), found(None, 1))?;
    check_eq(map.count(), 4)?;
    check_eq(area[0].moved, 0)?;
    check_eq(area[0].filter, 0)
}

#[test]
fn a_held_label_gets_a_new_payload_where_others_find_it_full() -> Result<(), Fail> {
    let mut area = pair_of_blanks();
    let mut map = BucketMap::new(&mut area);
    adds(&mut map, [0, 2, 4, 6, 256].map(tenfold))?;
    check_eq(map.put(OldBlock(8), 80), Err(Denied::Full))?;
    check(map.ask(OldBlock(2)) && map.ask(OldBlock(256)))?;
    check_eq(map.put(OldBlock(2), 21), Ok(Stored::Replaced(20)))?;
    check_eq(map.put(OldBlock(256), 9), Ok(Stored::Replaced(2560)))?;
    check_eq(map.put(OldBlock(256), 8), Ok(Stored::Replaced(9)))?;
    check_eq(map.find(OldBlock(2)).payload, Some(21))?;
    check_eq(map.find(OldBlock(256)).payload, Some(8))?;
    check_eq(map.count(), 5)?;
    check_eq(area[0].moved, 1)?;
    check_eq(area[0].s1.payload, 21)
}

#[test]
fn a_taken_label_leaves_its_traces() -> Result<(), Fail> {
    let mut area = pair_of_blanks();
    let mut map = BucketMap::new(&mut area);
    adds(&mut map, [2, 4, 6].map(tenfold))?;
    check_eq(map.take(OldBlock(4)), Some(40))?;
    check_eq(map.take(OldBlock(4)), None)?;
    check_eq(map.take(OldBlock(2)), Some(20))?;
    check_eq(map.count(), 1)?;
    check_eq(area[0].s0, left(2, 512))?;
    check_eq(area[0].s1, left(4, 1024))?;
    check_eq(area[0].s2, held(6, 1536))
}

#[test]
fn the_lowest_unused_slot_is_next() -> Result<(), Fail> {
    let mut area = pair_of_blanks();
    let mut map = BucketMap::new(&mut area);
    adds(&mut map, [2, 4, 6].map(tenfold))?;
    check_eq(map.take(OldBlock(4)), Some(40))?;
    check_eq(map.take(OldBlock(2)), Some(20))?;
    adds(&mut map, [8, 10, 12].map(tenfold))?;
    check_eq(
        slots(&area[0]).map(|slot| *slot),
        [held(8, 2048), held(10, 2560), held(6, 1536), held(12, 3072)],
    )
}
