// The steps that the calls of a map are made of; blanking is seen in what ask and put leave.
ghost use Rattle.std.specs.Prelude.{◌≡◌};

use crate::blanks::{NO_MARK, blank};
use bucket::{Bucket, Link, Place, Slot, allowed, mask, pair, tag};
use checks::{check, check_eq};
use insertion::{Stored, ask, put};
use label::{Label, OldBlock};
use map::Denied;
use marks::{join, place_at};
use search::{End, Outcome, search};
use std::test::*;
use table::{Found, Spot, find, locate, occupy, relocate, replace_payload, take};

#[test]
fn a_digest_leads_to_two_buckets() -> Result<(), Fail> {
    let digest = OldBlock(1).digest();
    check_eq(pair(digest, 2), (1, 0))?;
    check_eq(tag(digest), 256)?;
    check_eq(mask(digest), 1)?;
    check_eq(mask(OldBlock(131328).digest()), 5)?;
    check(allowed(1) && allowed(4096))?;
    check(!allowed(0) && !allowed(3) && !allowed(8192))
}

#[test]
fn slots_are_filled_freed_and_cleared() -> Result<(), Fail> {
    let mut bucket = blank(OldBlock(0), 0);
    bucket.fill(2, Slot::holding(7, OldBlock(5), 50));
    check_eq(bucket.place(7, OldBlock(5)), Some(2))?;
    check_eq(bucket.place(8, OldBlock(5)), None)?;
    check_eq(bucket.place(7, OldBlock(6)), None)?;
    check_eq((bucket.label(2), bucket.payload(2)), (OldBlock(5), 50))?;
    check_eq((bucket.vacancy(), bucket.used_slots()), (Some(0), 1))?;
    bucket.replace_payload(2, 51);
    bucket.free(2);
    check_eq(bucket.place(7, OldBlock(5)), None)?;
    check_eq(
        *bucket.slot(2),
        Slot {
            used: false,
            ..Slot::holding(7, OldBlock(5), 51)
        },
    )?;
    bucket.fill(3, Slot::holding(8, OldBlock(6), 60));
    bucket.count_out(5);
    bucket.clear();
    check_eq(
        (bucket.used_slots(), bucket.moved, bucket.filter),
        (0, 0, 0),
    )
}

#[test]
fn a_filter_goes_with_the_last_label_elsewhere() -> Result<(), Fail> {
    let mut bucket = blank(OldBlock(0), 0);
    bucket.count_out(5);
    bucket.count_out(9);
    check_eq((bucket.moved, bucket.filter), (2, 13))?;
    check(bucket.filter_contains(12) && !bucket.filter_contains(6))?;
    bucket.count_back();
    check_eq((bucket.moved, bucket.filter), (1, 13))?;
    bucket.count_back();
    check_eq((bucket.moved, bucket.filter), (0, 0))
}

#[test]
fn a_mark_keeps_a_place() -> Result<(), Fail> {
    let mut bucket = blank(OldBlock(0), 0);
    bucket.set_place(Link {
        bucket: 3,
        parent: 1,
        slot: 2,
    });
    check(!bucket.has_joined())?;
    bucket.set_joined(true);
    check(bucket.has_joined())?;
    check_eq(
        bucket.place_marks(),
        Place {
            bucket: 3,
            parent: 1,
            slot: 2,
        },
    )
}

fn spot(bucket: usize, slot: usize) -> Spot
    ensures { (result.bucket ≡ bucket) × (result.slot ≡ slot) }
{
    Spot { bucket, slot }
}

// 256 in bucket 0, and 2 and 4 beside it.
fn three() -> [Bucket<OldBlock, u32>; 2] {
    let mut area = [blank(OldBlock(0), 0); 2];
    occupy(&mut area, spot(0, 0), OldBlock(256), 2560);
    occupy(&mut area, spot(0, 1), OldBlock(2), 20);
    occupy(&mut area, spot(0, 2), OldBlock(4), 40);
    area
}

// The payloads of 256, 2, 4 and 6.
fn payloads(area: &[Bucket<OldBlock, u32>]) -> [Option<u32>; 4] {
    [256, 2, 4, 6].map(|n| find(area, OldBlock(n)).payload)
}

#[test]
fn a_move_leaves_every_find_as_it_was() -> Result<(), Fail> {
    let mut area = three();
    check_eq(payloads(&area), [Some(2560), Some(20), Some(40), None])?;
    check_eq(locate(&area, OldBlock(256)), (Some(spot(0, 0)), 1))?;
    relocate(&mut area, spot(0, 0), spot(1, 3));
    check_eq(payloads(&area), [Some(2560), Some(20), Some(40), None])?;
    check_eq(locate(&area, OldBlock(256)), (Some(spot(1, 3)), 2))?;
    check_eq((area[0].moved, area[0].filter), (1, 1))
}

#[test]
fn payloads_change_and_labels_go() -> Result<(), Fail> {
    let mut area = three();
    check_eq(replace_payload(&mut area, spot(0, 1), 21), 20)?;
    check_eq(take(&mut area, OldBlock(4)), Some(40))?;
    check_eq(payloads(&area), [Some(2560), Some(21), None, None])?;
    check_eq(
        find(&area[..0], OldBlock(2)),
        Found {
            payload: None,
            read: 0,
        },
    )
}

// Three of the four labels lead back to bucket 0, which does not join again.
#[test]
fn a_search_leaves_its_list_in_the_marks() -> Result<(), Fail> {
    let mut area = three();
    occupy(&mut area, spot(0, 3), OldBlock(0), 0);
    let end = Some(End { place: 1, slot: 0 });
    check_eq(
        search(&mut area, (0, 0)),
        Outcome {
            count: 2,
            starts: 1,
            end,
        },
    )?;
    check_eq(
        place_at(&area, 1),
        Place {
            bucket: 1,
            parent: 0,
            slot: 0,
        },
    )?;
    check(area[0].has_joined() && area[1].has_joined())
}

#[test]
fn a_bucket_joins_at_a_place() -> Result<(), Fail> {
    let mut area = three();
    let place = Place {
        bucket: 1,
        parent: 0,
        slot: 2,
    };
    check_eq(join(&mut area, 0, place), 1)?;
    check_eq(place_at(&area, 0), place)?;
    check(area[1].has_joined() && !area[0].has_joined())
}

#[test]
fn bare_buckets_are_asked_and_put_into() -> Result<(), Fail> {
    let mut area = three();
    check(ask(&mut area, OldBlock(6)))?;
    check_eq(area, three())?;
    check_eq(put(&mut area, OldBlock(0), 1), Ok(Stored::Added(0)))?;
    check_eq(put(&mut area, OldBlock(6), 60), Ok(Stored::Added(1)))?;
    check_eq(put(&mut area, OldBlock(6), 61), Ok(Stored::Replaced(60)))?;
    check_eq(put(&mut area, OldBlock(8), 80), Err(Denied::Full))?;
    check(!ask(&mut area, OldBlock(8)))?;
    check_eq([area[0].mark, area[1].mark], [NO_MARK; 2])
}
