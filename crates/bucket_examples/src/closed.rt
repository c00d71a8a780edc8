// Why a full answer is right, told from the area alone: a set of buckets that are full of labels which can lie nowhere else.
use crate::upkeep::{first, second, slots};
use bucket::Bucket;
use checks::check;
use label::Label;
use std::test::*;

fn has(set: &[bool], i: u64) -> bool {
    set.get(i as usize).is_some_and(|inside| *inside)
}

fn add(set: &mut [bool], i: u64) {
    if let Some(inside) = set.get_mut(i as usize) {
        *inside = true;
    }
}

// Adds both buckets of a label.
fn add_homes<L: Label>(set: &mut [bool], label: L) {
    let size = set.len() as u64;
    add(set, first(label.digest(), size));
    add(set, second(label.digest(), size));
}

// Whether both buckets of a label are in a set.
fn has_homes<L: Label>(set: &[bool], label: L) -> bool {
    let size = set.len() as u64;
    has(set, first(label.digest(), size)) && has(set, second(label.digest(), size))
}

fn count(set: &[bool]) -> usize {
    set.iter().filter(|inside| **inside).count()
}

// Adds both buckets of each label that lies in a bucket.
fn add_all<L: Label>(set: &mut [bool], bucket: &Bucket<L, u32>) {
    for slot in slots(bucket) {
        add_homes(set, slot.label);
    }
}

// Adds the buckets of all labels that lie in the set, and answers whether one is new there.
fn grows<L: Label>(area: &[Bucket<L, u32>], set: &mut [bool]) -> bool {
    let before = count(set);
    for (i, bucket) in area.iter().enumerate() {
        if has(set, i as u64) {
            add_all(set, bucket);
        }
    }
    count(set) > before
}

// Makes an empty set that of the buckets which moves for a label could lead to.
pub(crate) fn reach<L: Label>(area: &[Bucket<L, u32>], label: L, set: &mut [bool]) {
    add_homes(set, label);
    for _ in 0..4096 {
        if !grows(area, set) {
            return;
        }
    }
}

// Both buckets of a label are in a set whose every slot is used by a label that can lie nowhere else: no arrangement has room for one more.
pub(crate) fn cannot_fit<L: Label>(
    area: &[Bucket<L, u32>],
    label: L,
    set: &[bool],
) -> Result<(), Fail> {
    check(has_homes(set, label))?;
    for (bucket, inside) in area.iter().zip(set) {
        check(
            !inside
                || slots(bucket)
                    .iter()
                    .all(|slot| slot.used && has_homes(set, slot.label)),
        )?;
    }
    Ok(())
}
