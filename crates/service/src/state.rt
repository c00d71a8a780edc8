// A service, and where its blocks and streams stand.
ghost use Rattle.std.specs.Prelude.{◌≡◌, ◌≤◌, ◌<◌, Some, None, MatchResult};
ghost use Rattle.refusal.specs.declared.Refusal.TheVariants.{NumberTooLarge};

use crate::pool::Marks;
use refusal::Refusal;
use ring::Ring;
use std::marker::PhantomData;

mod ending;
mod granting;
mod making;
mod reading;
mod streaming;
mod writing;

pub use making::check;

/// A block map service: `limit` bounds the block numbers of the line L, `entries` pairs them with entries, and `streams` pairs
/// stream labels with positions; only the calls of a stream change it.
#[derive(Drop)]
pub struct Service<'a, L, B, S> {
    limit: u32,
    pool: Ring<'a, u32>,
    marks: Marks<'a>,
    entries: B,
    streams: S,
    out: usize,
    condemned: usize,
    fault: Option<Refusal>,
    line: PhantomData<L>,
}

impl<L, B, S> Service<'_, L, B, S> {
    /// Whether the check at making passed; where it failed, every call answers its refusal.
    pub fn sound(&self) -> Result<(), Refusal>
        ensures { MatchResult result (λ _. self.now.fault ≡ None) (λ e. self.now.fault ≡ Some e) }
    {
        self.fault.map_or(Ok(()), Err)
    }

    // Whether n is a block number of this service.
    fn allows(&self, n: u32) -> Result<(), Refusal>
        ensures { MatchResult result (λ _. n < self.now.limit) (λ e. (e ≡ NumberTooLarge) × (self.now.limit ≤ n)) }
    {
        if n < self.limit {
            Ok(())
        } else {
            Err(Refusal::NumberTooLarge)
        }
    }
}
