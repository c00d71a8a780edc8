// Reading the reached list, and joining it.
ghost use Rattle.std.specs.Prelude.{◌≡◌, ◌+◌, ◌<◌, ◌≤◌, length, if◌then◌else◌};
ghost use Rattle.bucket.specs.Changes.{modify, with_joined, with_place};
ghost use Rattle.marks.specs.Marks.{has_joined, bucket_at, parent_at, slot_at, joined_count, joined_to};

use bucket::{Bucket, Link, Place};
use label::Label;

pub fn place_at<L: Label, V: Copy>(buckets: &[Bucket<L, V>], j: usize) -> Place
    requires { j < length buckets.now }
    ensures bucket { result.bucket ≡ bucket_at buckets.now j }
    ensures parent { result.parent ≡ parent_at buckets.now j }
    ensures slot { result.slot ≡ slot_at buckets.now j }
{
    buckets[j].place_marks()
}

// One write each: the index is the caller's to bound.
pub(crate) fn mark_joined<L: Label, V: Copy>(buckets: &mut [Bucket<L, V>], i: usize, joined: bool)
    requires { i < length buckets.old }
    ensures { buckets.new ≡ modify (with_joined joined) buckets.old i }
{
    buckets[i].set_joined(joined);
}

pub(crate) fn mark_place<L: Label, V: Copy>(buckets: &mut [Bucket<L, V>], j: usize, link: Link)
    requires { j < length buckets.old }
    ensures { buckets.new ≡ modify (with_place link.bucket link.parent link.slot) buckets.old j }
{
    buckets[j].set_place(link);
}

// The place's bucket joins the reached list of `count` places, unless it has; answers how many places there are then. The count goes beside the buckets, and what a list is (`Listed`) is a clause: the buckets keep the list in their marks, and are lent on bare at each step.
pub fn join<L: Label, V: Copy>(buckets: &mut [Bucket<L, V>], count: usize, place: Place) -> usize
    requires room { count ≤ joined_count buckets.old }
    requires within { place.bucket < length buckets.old }
    requires small { (length buckets.old ≤ 4096) × (place.parent < 4096) × (place.slot < 4) }
    ensures area { buckets.new ≡ joined_to buckets.old count place.bucket place.parent place.slot }
    ensures count { result ≡ (if has_joined buckets.old place.bucket then count else count + 1) }
{
    if buckets[place.bucket].has_joined() {
        return count;
    }
    mark_joined(buckets, place.bucket, true);
    let link = Link {
        bucket: place.bucket as u16,
        parent: place.parent as u16,
        slot: place.slot as u8,
    };
    mark_place(buckets, count, link);
    count + 1
}
