// Single changes of a table: a slot is taken up or freed, a label moves to its other bucket, a payload is replaced. Each keeps counts and filters right.
ghost use Rattle.std.specs.Prelude.{◌≡◌, ℕ, ◌<◌, ◌≤◌, length, slice_index_or};
ghost use Rattle.bucket.specs.Spread.{Allowed};
ghost use Rattle.bucket.specs.Slots.{slot_of};
ghost use Rattle.bucket.specs.Changes.{modify, with_payload};
ghost use Rattle.bucket.specs.declared.slots.Bucket.{Bucket};
ghost use Rattle.table.specs.Tables.{Sound};
ghost use Rattle.table.specs.Moving.{vacated, occupied, relocated, Movable, Moves};

use crate::finding::{Spot, payload_at};
use bucket::{Bucket, Slot, mask, pair, tag};
use label::Label;

// Frees a slot, and answers what it held.
pub(crate) fn vacate<L: Label, V: Copy>(buckets: &mut [Bucket<L, V>], spot: Spot) -> Slot<L, V>
    requires right { Allowed (length buckets.old) }
    requires within { spot.bucket < length buckets.old }
    ensures slot { (d : Bucket L V) → result ≡ slot_of (slice_index_or buckets.old spot.bucket d) spot.slot }
    ensures area { buckets.new ≡ vacated L.Label buckets.old (L.Label.number result.label) spot.bucket spot.slot }
{
    let slot = *buckets[spot.bucket].slot(spot.slot);
    let (first, _) = pair(slot.label.digest(), buckets.len());
    buckets[spot.bucket].free(spot.slot);
    if first != spot.bucket {
        buckets[first].count_back();
    }
    slot
}

// Sets the label and the payload into a slot.
pub fn occupy<L: Label, V: Copy>(buckets: &mut [Bucket<L, V>], spot: Spot, label: L, payload: V)
    requires right { Allowed (length buckets.old) }
    requires within { spot.bucket < length buckets.old }
    ensures { buckets.new ≡ occupied L.Label buckets.old (L.Label.number label) spot.bucket spot.slot label payload }
{
    let digest = label.digest();
    let (first, _) = pair(digest, buckets.len());
    buckets[spot.bucket].fill(spot.slot, Slot::holding(tag(digest), label, payload));
    if first != spot.bucket {
        buckets[first].count_out(mask(digest));
    }
}

// What the one slot holds goes into the other; answers what moved.
fn hop<L: Label, V: Copy>(buckets: &mut [Bucket<L, V>], from: Spot, to: Spot) -> Slot<L, V>
    requires right { Allowed (length buckets.old) }
    requires within { (from.bucket < length buckets.old) × (to.bucket < length buckets.old) }
    ensures slot { (d : Bucket L V) → result ≡ slot_of (slice_index_or buckets.old from.bucket d) from.slot }
    ensures area { buckets.new ≡ occupied L.Label (vacated L.Label buckets.old (L.Label.number result.label) from.bucket from.slot) (L.Label.number result.label) to.bucket to.slot result.label result.payload }
{
    let slot = vacate(buckets, from);
    occupy(buckets, to, slot.label, slot.payload);
    slot
}

// One move: the label of the one slot goes into the other. A host may read between moves: each leaves every find's payload as it was.
pub fn relocate<L: Label, V: Copy>(buckets: &mut [Bucket<L, V>], from: Spot, to: Spot)
    requires right { Allowed (length buckets.old) }
    requires within { (from.bucket < length buckets.old) × (to.bucket < length buckets.old) }
    ensures area { buckets.new ≡ relocated L.Label buckets.old from.bucket from.slot to.bucket to.slot }
    ensures finds { Movable L.Label buckets.old from.bucket from.slot to.bucket to.slot → Sound L.Label buckets.old → Moves L.Label buckets.old buckets.new }
{
    hop(buckets, from, to);
}

// Replaces the payload of a slot, and answers the old one.
pub fn replace_payload<L: Label, V: Copy>(buckets: &mut [Bucket<L, V>], spot: Spot, payload: V) -> V
    requires { spot.bucket < length buckets.old }
    ensures old { (d : Bucket L V) → result ≡ (slot_of (slice_index_or buckets.old spot.bucket d) spot.slot).payload }
    ensures area { buckets.new ≡ modify (with_payload spot.slot payload) buckets.old spot.bucket }
{
    let old = payload_at(buckets, spot);
    buckets[spot.bucket].replace_payload(spot.slot, payload);
    old
}
