// One place of the reached list: its bucket's unused slot, or where its labels lead.
ghost use Rattle.std.specs.Prelude.{◌≡◌, ℕ, ◌<◌, ◌≤◌, List, length, if◌then◌else◌, MatchOption, nat_eq};
ghost use Rattle.bucket.specs.Spread.{Allowed};
ghost use Rattle.bucket.specs.declared.slots.Bucket.{Bucket};
ghost use Rattle.table.specs.Moving.{other_at};
ghost use Rattle.marks.specs.Marks.{bucket_at, Listed};
ghost use Rattle.search.specs.Reached.{Searching, FullAt, LowestAt};

use bucket::{Bucket, Place, pair};
use label::Label;
use marks::{join, place_at};

// The lowest unused slot of bucket i.
pub(crate) fn vacancy_at<L: Label, V: Copy>(buckets: &[Bucket<L, V>], i: usize) -> Option<usize>
    requires { i < length buckets.now }
    ensures { MatchOption result (FullAt buckets.now i) (LowestAt buckets.now i) }
{
    buckets[i].vacancy()
}

// Of the two buckets of a label that lies in bucket i, the one where it does not lie.
fn the_other(first: usize, second: usize, i: usize) -> usize
    ensures { result ≡ (if nat_eq first i then second else first) }
{
    if first == i { second } else { first }
}

// The other bucket of the label in slot k of bucket i.
fn other<L: Label, V: Copy>(buckets: &[Bucket<L, V>], i: usize, k: usize) -> usize
    requires right { Allowed (length buckets.now) }
    requires within { i < length buckets.now }
    ensures value { result ≡ other_at L.Label buckets.now i k }
    ensures within { result < length buckets.now }
{
    let (first, second) = pair(buckets[i].label(k).digest(), buckets.len());
    the_other(first, second, i)
}

// The other buckets of the labels at place `head` join the list of `count` places, in the order of the slots; answers how many places there are then.
pub(crate) fn expand<L: Label, V: Copy>(
    buckets: &mut [Bucket<L, V>],
    head: usize,
    count: usize,
) -> usize
    requires right { Allowed (length buckets.old) }
    requires listed { Listed buckets.old count }
    requires within { head < count }
    ensures listed { Listed buckets.new result }
    ensures more { count ≤ result }
    ensures head { bucket_at buckets.old head ≡ bucket_at buckets.new head }
    ensures search { (bs : List (Bucket L V)) (p s st : ℕ) → Searching L.Label bs p s buckets.old st count head 0 → FullAt bs (bucket_at buckets.old head) → Searching L.Label bs p s buckets.new st result head 4 }
{
    let bucket = place_at(buckets, head).bucket;
    let mut n = count;
    // By number: each turn writes the marks of the buckets, so no borrow of the slots can stay.
    for k in 0..4 {
        let next = other(buckets, bucket, k);
        n = join(
            buckets,
            n,
            Place {
                bucket: next,
                parent: head,
                slot: k,
            },
        );
    }
    n
}
