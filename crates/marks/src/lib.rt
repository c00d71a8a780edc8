// The reached list, kept in the marks of the buckets themselves: bucket j's mark describes place j of the list, and each bucket's mark says whether it has joined. So the list takes no memory of its own, and costs what is reached.
#![tactic(auto)]

mod blanking;
mod list;

pub use blanking::blank;
pub use list::{join, place_at};
