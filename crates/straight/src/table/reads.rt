// The calls of a straight map that leave its area as it is.
ghost use Rattle.std.specs.Prelude.{◌≡◌};
ghost use Rattle.straight.specs.Rows.{live, look, busy, ask_answer};

use crate::table::StraightMap;
use label::Label;

impl<'a, L: Label, V: Copy> StraightMap<'a, L, V> {
    // The payload of the label.
    pub fn find(&self, label: L) -> Option<V>
        ensures { result ≡ look L.Label.number (live self.now.rows.now) (L.Label.number label) }
    {
        self.live()
            .iter()
            .find(|row| row.holds(label))
            .map(|row| row.payload)
    }

    // Whether the label is held or a row is unused.
    pub fn ask(&self, label: L) -> bool
        ensures { result ≡ ask_answer L.Label.number (L.Label.number label) (live self.now.rows.now) }
    {
        self.live()
            .iter()
            .any(|row| !row.used || row.label.same(label))
    }

    // The number of labels held.
    pub fn count(&self) -> usize
        ensures { result ≡ busy (live self.now.rows.now) }
    {
        // A sum, since a filtered count branches at each row.
        self.live().iter().map(|row| usize::from(row.used)).sum()
    }
}
