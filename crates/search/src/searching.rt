// The search itself.
ghost use Rattle.std.specs.Prelude.{◌≡◌, ℕ, ◌<◌, ◌≤◌, List, length, IfSome};
ghost use Rattle.bucket.specs.Spread.{Allowed};
ghost use Rattle.bucket.specs.declared.slots.Bucket.{Bucket};
ghost use Rattle.table.specs.Tables.{unmarked};
ghost use Rattle.marks.specs.Marks.{Listed};
ghost use Rattle.search.specs.Reached.{Searching, Ended};
ghost use Rattle.search.specs.Unique.{OneTrail};

use crate::expanding::{expand, vacancy_at};
use bucket::{Bucket, Place};
use label::Label;
use marks::{join, place_at};

// Where a search ended: a place of its list, and the lowest unused slot of the bucket there.
#[derive(Clone, Copy, PartialEq, Eq, Debug)]
pub struct End {
    pub place: usize,
    pub slot: usize,
}

// What a search leaves in the marks: the places of its list, and how many of them are starts. Where it used up the list there is no end.
#[derive(Clone, Copy, PartialEq, Eq, Debug)]
pub struct Outcome {
    pub count: usize,
    pub starts: usize,
    pub end: Option<End>,
}

// Takes the places in the order in which they joined, until one has an unused slot.
fn reach<L: Label, V: Copy>(buckets: &mut [Bucket<L, V>], starts: usize) -> Outcome
    requires right { Allowed (length buckets.old) }
    requires listed { Listed buckets.old starts }
    ensures listed { Listed buckets.new result.count }
    ensures starts { result.starts ≡ starts }
    ensures end { IfSome result.end (λ e. (e.place < result.count) × (0 < result.starts)) }
    ensures search { (bs : List (Bucket L V)) (p s : ℕ) → Searching L.Label bs p s buckets.old starts starts 0 0 → Ended L.Label bs p s buckets.new starts result.count result.end }
{
    let mut head = 0;
    let mut count = starts;
    // The list lies in the buckets that `expand` writes, and grows on the way: no iterator can hold it.
    while head < count {
        let place = place_at(buckets, head);
        if let Some(slot) = vacancy_at(buckets, place.bucket) {
            let end = Some(End { place: head, slot });
            return Outcome { count, starts, end };
        }
        count = expand(buckets, head, count);
        head += 1;
    }
    Outcome {
        count,
        starts,
        end: None,
    }
}

// The search from the two homes of a label, its first and its second bucket. In a table at rest its list is the reached list of the rules, which allow only one, and nothing but marks has changed.
pub fn search<L: Label, V: Copy>(buckets: &mut [Bucket<L, V>], homes: (usize, usize)) -> Outcome
    requires right { Allowed (length buckets.old) }
    requires within { (homes.0 < length buckets.old) × (homes.1 < length buckets.old) }
    ensures listed { Listed buckets.new result.count }
    ensures end { IfSome result.end (λ e. (e.place < result.count) × (0 < result.starts)) }
    ensures search { unmarked buckets.old ≡ buckets.old → Ended L.Label buckets.old homes.0 homes.1 buckets.new result.starts result.count result.end }
    ensures one { OneTrail L.Label buckets.old }
{
    let one = join(
        buckets,
        0,
        Place {
            bucket: homes.0,
            parent: 0,
            slot: 0,
        },
    );
    let starts = join(
        buckets,
        one,
        Place {
            bucket: homes.1,
            parent: 0,
            slot: 0,
        },
    );
    reach(buckets, starts)
}
