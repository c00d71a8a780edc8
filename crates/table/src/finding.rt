// Where a label lies, and the payload it has.
ghost use Rattle.std.specs.Prelude.{◌≡◌, ◌<◌, true, length, IfSome, Decides, ◌≢◌, slice_index_or};
ghost use Rattle.bucket.specs.Slots.{slot_of};
ghost use Rattle.bucket.specs.declared.slots.Bucket.{Bucket};
ghost use Rattle.bucket.specs.Spread.{Allowed};
ghost use Rattle.table.specs.Finding.{Looks, Finds};
ghost use Rattle.table.specs.Twins.{SameFind};

use bucket::{Bucket, allowed, mask, pair, tag};
use label::Label;

#[derive(Clone, Copy, PartialEq, Eq, Debug)]
pub struct Spot {
    pub bucket: usize,
    pub slot: usize,
}

// What a find answers: the payload, if any, and how many buckets were read for it.
#[derive(Clone, Copy, PartialEq, Eq, Debug)]
pub struct Found<V> {
    pub payload: Option<V>,
    pub read: u8,
}

// A find goes on to the second bucket only if it is another one and the first bucket's filter has the label's mask.
fn goes_on(first: usize, second: usize, known: bool) -> bool
    ensures { Decides result ((second ≢ first) × (known ≡ true)) }
{
    second != first && known
}

// The slot of a label, if any, and the buckets read for it.
pub fn locate<L: Label, V: Copy>(buckets: &[Bucket<L, V>], label: L) -> (Option<Spot>, u8)
    requires { Allowed (length buckets.now) }
    ensures rule { Looks L.Label buckets.now (L.Label.number label) result.0 result.1 }
    ensures within { IfSome result.0 (λ x. x.bucket < length buckets.now) }
{
    let digest = label.digest();
    let (first, second) = pair(digest, buckets.len());
    let tag = tag(digest);
    if let Some(slot) = buckets[first].place(tag, label) {
        return (
            Some(Spot {
                bucket: first,
                slot,
            }),
            1,
        );
    }
    if !goes_on(first, second, buckets[first].filter_contains(mask(digest))) {
        return (None, 1);
    }
    let spot = buckets[second].place(tag, label).map(|slot| Spot {
        bucket: second,
        slot,
    });
    (spot, 2)
}

pub(crate) fn payload_at<L: Label, V: Copy>(buckets: &[Bucket<L, V>], spot: Spot) -> V
    requires { spot.bucket < length buckets.now }
    ensures { (d : Bucket L V) → result ≡ (slot_of (slice_index_or buckets.now spot.bucket d) spot.slot).payload }
{
    buckets[spot.bucket].payload(spot.slot)
}

// The payload of a label. Over an area of wrong size nothing is read.
pub fn find<L: Label, V: Copy>(buckets: &[Bucket<L, V>], label: L) -> Found<V>
    ensures find { Finds L.Label buckets.now (L.Label.number label) result }
    ensures alike { SameFind L.Label buckets.now (L.Label.number label) result }
{
    if !allowed(buckets.len()) {
        return Found {
            payload: None,
            read: 0,
        };
    }
    let (spot, read) = locate(buckets, label);
    // A closure for `map` would hide from the proof what it reads.
    let payload = match spot {
        Some(x) => Some(payload_at(buckets, x)),
        None => None,
    };
    Found { payload, read }
}
