// Vectors of the mixing step: inputs with the outputs that another SplitMix64 gave, read from a text and compared with ours.
#![tactic(auto)]

mod agreement;
mod reading;

pub use agreement::{Difference, Score, Vector, differences};
pub use reading::{NoVector, ReadError, text_in, vectors_of};
