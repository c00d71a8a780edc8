// A table of 4,096 buckets, filled with new-line labels until one does not fit.
use crate::blanks::blank;
use crate::closed::{cannot_fit, reach};
use crate::upkeep::well_kept;
use bucket_map::BucketMap;
use checks::{check, check_eq};
use insertion::Stored;
use label::NewBlock;
use map::Denied;
use std::test::*;

// The label of a turn. No two are the same, since the factor is odd.
fn nth(i: u32) -> NewBlock {
    NewBlock(i.wrapping_mul(2654435761))
}

// How many labels were put before one did not fit, and the most moves that a put made.
#[derive(Clone, Copy, PartialEq, Eq, Debug)]
struct Filled {
    count: u32,
    moves: usize,
}

fn fill(map: &mut BucketMap<NewBlock, u32>) -> Result<Filled, Fail> {
    let mut most = 0;
    for i in 0..16385 {
        match map.put(nth(i), i) {
            Ok(Stored::Added(moves)) => most = most.max(moves),
            Err(Denied::Full) => {
                return Ok(Filled {
                    count: i,
                    moves: most,
                });
            }
            Ok(Stored::Replaced(_)) => return Err(Fail::new("a label was there before")),
        }
    }
    Err(Fail::new("more labels fit than there are slots"))
}

fn finds_all(map: &BucketMap<NewBlock, u32>, count: u32) -> Result<(), Fail> {
    for i in 0..count {
        let found = map.find(nth(i));
        check_eq(found.payload, Some(i))?;
        check(found.read == 1 || found.read == 2)?;
    }
    check_eq(map.count(), count as usize)
}

#[test]
fn sixteen_thousand_labels_are_found() -> Result<(), Fail> {
    let mut area = [blank(NewBlock(0), 0); 4096];
    let mut map = BucketMap::new(&mut area);
    let filled = fill(&mut map)?;
    check(filled.count >= 15900 && filled.count <= 16100)?;
    check(filled.moves >= 5 && filled.moves <= 4095)?;
    finds_all(&map, filled.count)?;
    check_eq(map.find(nth(filled.count)).payload, None)?;
    check(!map.ask(nth(filled.count)))
}

// Takes every third label out.
fn takes_thirds(map: &mut BucketMap<NewBlock, u32>, count: u32) -> Result<(), Fail> {
    for i in (0..count).step_by(3) {
        check_eq(map.take(nth(i)), Some(i))?;
        check_eq(map.find(nth(i)).payload, None)?;
    }
    Ok(())
}

// Puts every third label in again: they fit, since they fitted before.
fn puts_thirds(map: &mut BucketMap<NewBlock, u32>, count: u32) -> Result<(), Fail> {
    for i in (0..count).step_by(3) {
        check(map.ask(nth(i)))?;
        match map.put(nth(i), i) {
            Ok(Stored::Added(moves)) => check(moves <= 4095)?,
            _ => return Err(Fail::new("a label did not fit again")),
        }
    }
    Ok(())
}

#[test]
fn what_is_taken_out_of_a_full_table_fits_again() -> Result<(), Fail> {
    let mut area = [blank(NewBlock(0), 0); 4096];
    let mut map = BucketMap::new(&mut area);
    let filled = fill(&mut map)?;
    let denied = nth(filled.count);
    takes_thirds(&mut map, filled.count)?;
    check_eq(
        map.count(),
        (filled.count - filled.count.div_ceil(3)) as usize,
    )?;
    check_eq(map.put(denied, 1), Ok(Stored::Added(0)))?;
    check_eq(map.take(denied), Some(1))?;
    puts_thirds(&mut map, filled.count)?;
    check_eq(map.put(denied, 1), Err(Denied::Full))?;
    finds_all(&map, filled.count)?;
    well_kept(&area)
}

#[test]
fn full_is_said_only_where_no_arrangement_has_room() -> Result<(), Fail> {
    let mut area = [blank(NewBlock(0), 0); 4096];
    let mut map = BucketMap::new(&mut area);
    let filled = fill(&mut map)?;
    finds_all(&map, filled.count)?;
    let mut set = [false; 4096];
    reach(&area, nth(filled.count), &mut set);
    cannot_fit(&area, nth(filled.count), &set)?;
    well_kept(&area)
}
