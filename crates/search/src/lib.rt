// The breadth-first search for an unused slot, from the two buckets of a label. It visits each bucket that it reaches at most once, and writes nothing but marks. The allowed size is a clause of each function, for the reason that `table` gives.
#![tactic(auto)]

mod expanding;
mod searching;

pub use searching::{End, Outcome, search};
