// The block map service of a card: the pool of blank blocks, the entries of the block numbers, the grants between them, and the streams.
#![tactic(auto)]

mod entry;
mod grant;
mod pool;
mod state;

pub use entry::Ending;
pub use grant::Grant;
pub use pool::Mark;
pub use state::{Service, check};
