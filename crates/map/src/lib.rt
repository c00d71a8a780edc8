// What a map promises, whatever its area looks like: it means pairs of a label and a payload, and it has a fit, the sets of labels that it can hold.
#![tactic(auto)]

ghost use Rattle.std.specs.Prelude.{ℕ, Bool, Option};
ghost use Rattle.map.specs.Meaning.{Lawful, Finds, Asks, Puts, Takes, Counted};

mod laws;

use label::Label;
pub use laws::alike;

// Why a put is denied: the label does not fit beside those held.
#[derive(Clone, Copy, PartialEq, Eq, Debug)]
pub enum Denied {
    Full,
}

// What a map keeps of its area is an invariant of its type, so a call asks nothing. Find and count take the map by `&mut`, since a map may write down what it is asked.
pub trait Map<L: Label, V> {
    // The payload of the label with a number, or none.
    ghost pairs: { Self → ℕ → Option V };

    // What the fit depends on; it never changes.
    ghost shape: { Self → ℕ };

    // The sets of labels, as tests on their numbers, that a map of a shape can hold.
    ghost fits: { ℕ → (ℕ → Bool) → Type 0 };

    // The payload of a label.
    fn find(&mut self, label: L) -> Option<V>
        ensures { Finds pairs shape fits self.old (L.Label.number label) result self.new };

    // Whether a put of the label would be taken.
    fn ask(&mut self, label: L) -> bool
        ensures { Asks pairs shape fits self.old (L.Label.number label) result self.new };

    // Gives the label the payload, and answers the payload that it had.
    fn put(&mut self, label: L, payload: V) -> Result<Option<V>, Denied>
        ensures { Puts pairs shape fits self.old (L.Label.number label) payload result self.new };

    // Takes the label out, and answers the payload that it had.
    fn take(&mut self, label: L) -> Option<V>
        ensures { Takes pairs shape fits self.old (L.Label.number label) result self.new };

    // The number of labels held.
    fn count(&mut self) -> usize
        ensures { Counted pairs shape fits self.old result self.new };

    ghost lawful: { (m : Self) → Lawful (pairs m) (fits (shape m)) };
}
