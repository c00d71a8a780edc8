// Taking a label out of the table, that is of bare buckets, as put takes them: well kept is a premise here and an invariant only in the map above.
ghost use Rattle.table.specs.Tables.{live, WellKept};
ghost use Rattle.table.specs.Moving.{Takes};

use crate::finding::locate;
use crate::moving::vacate;
use bucket::{Bucket, allowed};
use label::Label;

// Marks the label's slot unused, and answers the payload that it had.
pub fn take<L: Label, V: Copy>(buckets: &mut [Bucket<L, V>], label: L) -> Option<V>
    ensures { WellKept L.Label (live buckets.old) → Takes L.Label buckets.old (L.Label.number label) result buckets.new }
{
    if !allowed(buckets.len()) {
        return None;
    }
    let (spot, _) = locate(buckets, label);
    Some(vacate(buckets, spot?).payload)
}
