// Put and ask over lent buckets, of right and of wrong number. They take bare buckets, whose marks are in use midway, so well kept is a premise here and an invariant only in the map above.
ghost use Rattle.std.specs.Prelude.{◌≡◌};
ghost use Rattle.table.specs.Tables.{live, WellKept};
ghost use Rattle.search.specs.Unique.{OneTrail};
ghost use Rattle.insertion.specs.Putting.{Puts, Asks};
ghost use Rattle.insertion.specs.Unique.{OnePut};
ghost use Rattle.insertion.specs.Alike.{SameAsk, SamePut};

use crate::moving::make_moves;
use crate::planning::{Prospect, prospect_of};
use bucket::{Bucket, allowed};
use label::Label;
use map::Denied;
use marks::blank;
use table::{occupy, replace_payload};

// What a put did: another payload for the label, or a new pair after some moves.
#[derive(Clone, Copy, PartialEq, Eq, Debug)]
pub enum Stored<V> {
    Replaced(V),
    Added(usize),
}

fn store<L: Label, V: Copy>(
    buckets: &mut [Bucket<L, V>],
    label: L,
    payload: V,
) -> Result<Stored<V>, Denied>
    ensures { WellKept L.Label (live buckets.old) → Puts L.Label buckets.old label payload result buckets.new }
{
    if !allowed(buckets.len()) {
        return Err(Denied::Full);
    }
    match prospect_of(buckets, label)? {
        Prospect::Held(spot) => Ok(Stored::Replaced(replace_payload(buckets, spot, payload))),
        Prospect::Ready(plan) => {
            let end = make_moves(buckets, plan);
            blank(buckets, end.count);
            occupy(buckets, end.free, label, payload);
            Ok(Stored::Added(end.moves))
        }
    }
}

// The search's marks are blanked again.
fn probe<L: Label, V: Copy>(buckets: &mut [Bucket<L, V>], label: L) -> bool
    ensures { WellKept L.Label (live buckets.old) → Asks L.Label buckets.old (L.Label.number label) result buckets.new }
{
    if !allowed(buckets.len()) {
        return false;
    }
    match prospect_of(buckets, label) {
        Ok(Prospect::Held(_)) => true,
        Ok(Prospect::Ready(plan)) => {
            blank(buckets, plan.count);
            true
        }
        Err(Denied::Full) => false,
    }
}

// Gives the label the payload: the old payload of a held label, the number of moves that made room for a new one, or full.
pub fn put<L: Label, V: Copy>(
    buckets: &mut [Bucket<L, V>],
    label: L,
    payload: V,
) -> Result<Stored<V>, Denied>
    ensures put { WellKept L.Label (live buckets.old) → Puts L.Label buckets.old label payload result buckets.new }
    ensures one { OneTrail L.Label buckets.old }
    ensures only { OnePut L.Label buckets.old }
    ensures alike { SamePut L.Label buckets.old label payload result }
{
    store(buckets, label, payload)
}

// Whether a put of the label would be taken.
pub fn ask<L: Label, V: Copy>(buckets: &mut [Bucket<L, V>], label: L) -> bool
    ensures ask { WellKept L.Label (live buckets.old) → Asks L.Label buckets.old (L.Label.number label) result buckets.new }
    ensures alike { SameAsk L.Label buckets.old (L.Label.number label) result }
{
    probe(buckets, label)
}
