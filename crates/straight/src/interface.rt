// The straight map as a map: it fits each set of at most as many labels as it has rows.
ghost use Rattle.std.specs.Prelude.{◌≡◌, length};
ghost use Rattle.map.specs.Meaning.{Finds, Asks, Puts, Takes, Counted};
ghost use Rattle.map.specs.Sets.{AtMost};
ghost use Rattle.straight.specs.Rows.{live, look, within, put_rows, take_rows};
ghost use Rattle.straight.specs.Laws.{lawful};

use crate::table::StraightMap;
use label::Label;
use map::{Denied, Map};

// The map's own calls answer; of them find, ask and count read the map by `&`. Each clause `map` is the trait's, and `area` says what every row then holds.
impl<'a, L: Label, V: Copy> Map<L, V> for StraightMap<'a, L, V> {
    ghost pairs = { λ m. look L.Label.number (live m.rows.now) };

    ghost shape = { λ m. length (live m.rows.now) };

    ghost fits = { AtMost };

    fn find(&mut self, label: L) -> Option<V>
        ensures map { Finds (λ m. look L.Label.number (live m.rows.now)) (λ m. length (live m.rows.now)) AtMost self.old (L.Label.number label) result self.new }
        ensures lender { self.new.rows.ghost_name ≡ self.old.rows.ghost_name }
        ensures area { self.new.rows.now ≡ self.old.rows.now }
    {
        StraightMap::find(self, label)
    }

    fn ask(&mut self, label: L) -> bool
        ensures map { Asks (λ m. look L.Label.number (live m.rows.now)) (λ m. length (live m.rows.now)) AtMost self.old (L.Label.number label) result self.new }
        ensures lender { self.new.rows.ghost_name ≡ self.old.rows.ghost_name }
        ensures area { self.new.rows.now ≡ self.old.rows.now }
    {
        StraightMap::ask(self, label)
    }

    fn put(&mut self, label: L, payload: V) -> Result<Option<V>, Denied>
        ensures map { Puts (λ m. look L.Label.number (live m.rows.now)) (λ m. length (live m.rows.now)) AtMost self.old (L.Label.number label) payload result self.new }
        ensures lender { self.new.rows.ghost_name ≡ self.old.rows.ghost_name }
        ensures area { self.new.rows.now ≡ within (put_rows L.Label.number label payload) self.old.rows.now }
    {
        StraightMap::put(self, label, payload)
    }

    fn take(&mut self, label: L) -> Option<V>
        ensures map { Takes (λ m. look L.Label.number (live m.rows.now)) (λ m. length (live m.rows.now)) AtMost self.old (L.Label.number label) result self.new }
        ensures lender { self.new.rows.ghost_name ≡ self.old.rows.ghost_name }
        ensures area { self.new.rows.now ≡ within (take_rows L.Label.number (L.Label.number label)) self.old.rows.now }
    {
        StraightMap::take(self, label)
    }

    fn count(&mut self) -> usize
        ensures map { Counted (λ m. look L.Label.number (live m.rows.now)) (λ m. length (live m.rows.now)) AtMost self.old result self.new }
        ensures lender { self.new.rows.ghost_name ≡ self.old.rows.ghost_name }
        ensures area { self.new.rows.now ≡ self.old.rows.now }
    {
        StraightMap::count(self)
    }

    ghost lawful = { λ m. lawful L.Label.number (live m.rows.now) };
}
