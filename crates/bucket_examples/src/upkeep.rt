// Whether an area is well kept, told from its buckets by divisions of the labels' digests.
use crate::blanks::NO_MARK;
use bucket::{Bucket, Slot};
use checks::{check, check_eq};
use label::Label;
use std::test::*;

// The first bucket of a digest, of so many.
pub(crate) fn first(digest: u64, size: u64) -> u64 {
    if size == 0 { 0 } else { digest % size }
}

pub(crate) fn second(digest: u64, size: u64) -> u64 {
    first(digest / 4294967296, size)
}

pub(crate) fn slots<L: Label>(bucket: &Bucket<L, u32>) -> [&Slot<L, u32>; 4] {
    [&bucket.s0, &bucket.s1, &bucket.s2, &bucket.s3]
}

fn bits(digest: u64) -> u64 {
    (1 << (digest / 65536 % 64)) | (1 << (digest / 4194304 % 64))
}

// Labels that lie elsewhere than in their first bucket: how many, and their bits together.
#[derive(Clone, Copy, PartialEq, Eq, Debug, Default)]
struct Away {
    count: u16,
    bits: u64,
}

impl Away {
    fn also<L: Label>(self, slot: &Slot<L, u32>, home: u64, size: u64) -> Away {
        let digest = slot.label.digest();
        if slot.used && first(digest, size) == home {
            Away {
                count: self.count.wrapping_add(1),
                bits: self.bits | bits(digest),
            }
        } else {
            self
        }
    }

    // By a loop: a chain over slots with any kind of label would have to show that its iterators have a layout.
    fn also_all<L: Label>(self, bucket: &Bucket<L, u32>, home: u64, size: u64) -> Away {
        let mut away = self;
        for slot in slots(bucket) {
            away = away.also(slot, home, size);
        }
        away
    }
}

// The labels whose first bucket is `home` and which lie elsewhere.
fn away_from<L: Label>(area: &[Bucket<L, u32>], home: usize) -> Away {
    let size = area.len() as u64;
    let mut away = Away::default();
    for (i, bucket) in area.iter().enumerate() {
        if i != home {
            away = away.also_all(bucket, home as u64, size);
        }
    }
    away
}

// A used slot has the tag of its label, and lies in one of the label's buckets.
fn lies_right<L: Label>(slot: &Slot<L, u32>, i: u64, size: u64) -> Result<(), Fail> {
    let digest = slot.label.digest();
    check(!slot.used || slot.tag as u64 == digest / 281474976710656)?;
    check(!slot.used || first(digest, size) == i || second(digest, size) == i)
}

// The count is that of the labels elsewhere, the filter has their bits, and no mark is left.
fn is_kept<L: Label>(bucket: &Bucket<L, u32>, away: Away) -> Result<(), Fail> {
    check_eq(bucket.moved, away.count)?;
    check(bucket.filter & away.bits == away.bits)?;
    check(away.count > 0 || bucket.filter == 0)?;
    check_eq(bucket.mark, NO_MARK)
}

// How many used slots of the bucket have the label.
fn times_in<L: Label>(bucket: &Bucket<L, u32>, label: L) -> u32 {
    let [a, b, c, d] = slots(bucket).map(|slot| u32::from(slot.used && slot.label.same(label)));
    a + b + c + d
}

// How many used slots of the label's buckets have it.
fn times<L: Label>(area: &[Bucket<L, u32>], label: L) -> u32 {
    let size = area.len() as u64;
    let home = first(label.digest(), size);
    let other = second(label.digest(), size);
    let in_bucket = |i: u64| area
        .get(i as usize)
        .map_or(0, |bucket| times_in(bucket, label));
    if home == other {
        in_bucket(home)
    } else {
        in_bucket(home).wrapping_add(in_bucket(other))
    }
}

// Each label of the bucket lies right, and in one slot only.
fn all_lie_right<L: Label>(
    area: &[Bucket<L, u32>],
    bucket: &Bucket<L, u32>,
    i: u64,
) -> Result<(), Fail> {
    for slot in slots(bucket) {
        lies_right(slot, i, area.len() as u64)?;
        check(!slot.used || times(area, slot.label) == 1)?;
    }
    Ok(())
}

pub(crate) fn well_kept<L: Label>(area: &[Bucket<L, u32>]) -> Result<(), Fail> {
    for (i, bucket) in area.iter().enumerate() {
        all_lie_right(area, bucket, i as u64)?;
        is_kept(bucket, away_from(area, i))?;
    }
    Ok(())
}
