// The longest chains of moves: each bucket but the last is full, and one label of it leads on to the next.
use crate::blanks::blank;
use crate::upkeep::well_kept;
use bucket::Bucket;
use bucket_map::BucketMap;
use checks::{check, check_eq};
use insertion::Stored;
use label::OldBlock;
use std::test::*;

// A label with these two buckets, in a table of at most 256; `more` tells apart those that share both.
fn label(first: u32, second: u32, more: u32) -> OldBlock {
    OldBlock((first % 256) | (second % 256) << 8 | (more % 256) << 16)
}

// Fills a bucket: the first label of it leads on.
fn fill_bucket(map: &mut BucketMap<OldBlock, u32>, i: u32) -> Result<(), Fail> {
    check_eq(
        map.put(label(i, i.wrapping_add(1), 0), i),
        Ok(Stored::Added(0)),
    )?;
    for more in 1..4 {
        check_eq(map.put(label(i, i, more), i), Ok(Stored::Added(0)))?;
    }
    Ok(())
}

fn fill(map: &mut BucketMap<OldBlock, u32>, last: u32) -> Result<(), Fail> {
    for i in 0..last {
        fill_bucket(map, i)?;
    }
    Ok(())
}

// Each label that leads on has made one move, so a find of it reads two buckets.
fn all_moved(map: &BucketMap<OldBlock, u32>, last: u32) -> Result<(), Fail> {
    for i in 0..last {
        let found = map.find(label(i, i.wrapping_add(1), 0));
        check(found.payload == Some(i) && found.read == 2)?;
    }
    Ok(())
}

// One more label of bucket 0 makes as many moves as there are buckets but one.
fn moves_all(area: &mut [Bucket<OldBlock, u32>], last: u32) -> Result<(), Fail> {
    let mut map = BucketMap::new(area);
    fill(&mut map, last)?;
    check(map.ask(label(0, 0, 4)))?;
    check_eq(map.put(label(0, 0, 4), 9), Ok(Stored::Added(last as usize)))?;
    check_eq(map.find(label(0, 0, 4)).payload, Some(9))?;
    all_moved(&map, last)?;
    well_kept(area)
}

#[test]
fn seven_moves_over_eight_buckets() -> Result<(), Fail> {
    moves_all(&mut [blank(OldBlock(0), 0); 8], 7)
}

#[test]
fn all_moves_over_many_buckets() -> Result<(), Fail> {
    moves_all(&mut [blank(OldBlock(0), 0); 256], 255)
}
