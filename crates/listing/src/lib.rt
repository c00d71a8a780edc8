// A tape obeyed through a player, field by field: each field adds one line to the listing.
#![tactic(auto)]

mod lines;
mod obeying;
mod playing;

pub use lines::{Line, Reply};
pub use playing::play;
