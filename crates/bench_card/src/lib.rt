// The card of the returns bench, and tapes played on it; and lists of calls played over maps whose fits are written out.
#![tactic(auto)]

mod card;
mod fits;

pub use card::{list_tape, most_commands};
pub use fits::{play_in_buckets, play_in_rows};
