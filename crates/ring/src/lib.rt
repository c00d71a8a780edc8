// A first-in first-out queue over memory that the caller lends.
#![tactic(auto)]

mod queue;

pub use queue::Ring;
