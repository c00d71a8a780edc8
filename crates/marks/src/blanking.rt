// Blanking the marks of a reached list.
ghost use Rattle.std.specs.Prelude.{◌≡◌, ℕ, ◌<◌, ◌≤◌, length};
ghost use Rattle.table.specs.Tables.{unmarked};
ghost use Rattle.marks.specs.Marks.{Listed, Marked};

use crate::list::{mark_joined, mark_place, place_at};
use bucket::{Bucket, Link};
use label::Label;

// Goes along the list of `count` places once: each place's bucket leaves, and the place is blank. It costs what the list is long.
pub fn blank<L: Label, V: Copy>(buckets: &mut [Bucket<L, V>], count: usize)
    requires { Listed buckets.old count }
    ensures { Marked buckets.old count → buckets.new ≡ unmarked buckets.old }
{
    // By number: the list lies in the buckets that each turn writes.
    for j in 0..count {
        let place = place_at(buckets, j);
        mark_joined(buckets, place.bucket, false);
        mark_place(
            buckets,
            j,
            Link {
                bucket: 0,
                parent: 0,
                slot: 0,
            },
        );
    }
}
