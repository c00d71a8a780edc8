// The calls about settled blocks, and the tally.
ghost use Rattle.std.specs.Prelude.{◌≡◌};
ghost use Rattle.rules.specs.declared.Call.TheVariants.{Read as reading, Trim as trimming, Tally as tallying};
ghost use Rattle.service.specs.Service.{StepsBy, RefusesAll, Reads, Trims, Tallies, found, tallied};
ghost use Rattle.service.specs.Promised.{PromisedAlways};

use super::Service;
use crate::entry::{Event, advance, settled_block};
use crate::pool;
use label::{BlockNumber, StreamLabel};
use map::Map;
use refusal::Refusal;
use rules::{Entry, Position, Tally};

impl<'a, L: BlockNumber, B: Map<L, Entry>, S: Map<StreamLabel, Position>> Service<'a, L, B, S> {
    /// The settled block of the number n, or none. Refuses a number that is too large (3).
    pub fn read(&mut self, n: u32) -> Result<Option<u32>, Refusal>
        ensures step { StepsBy B.Map S.Map self.old (reading n) (found result) self.new }
        ensures leaves { Reads B.Map S.Map self.old n result self.new }
        ensures streams { self.new.streams ≡ self.old.streams }
        ensures faulty { RefusesAll B.Map S.Map self.old (found result) self.new }
    {
        self.sound()?;
        self.allows(n)?;
        Ok(settled_block(self.entries.find(L::from(n))))
    }

    /// Removes the settled block of the number n, which returns to the pool, and answers it, or none.
    /// Refuses, in this order, a number that is too large (3) or busy (4).
    pub fn trim(&mut self, n: u32) -> Result<Option<u32>, Refusal>
        ensures step { StepsBy B.Map S.Map self.old (trimming n) (found result) self.new }
        ensures leaves { Trims B.Map S.Map self.old n result self.new }
        ensures streams { self.new.streams ≡ self.old.streams }
        ensures faulty { RefusesAll B.Map S.Map self.old (found result) self.new }
    {
        self.sound()?;
        self.allows(n)?;
        let label = L::from(n);
        let entry = self.entries.find(label);
        advance(entry, Event::Trim).ok_or(Refusal::NumberBusy)?;
        let taken = self.entries.take(label);
        let block = settled_block(taken);
        pool::release(&mut self.pool, block);
        Ok(block)
    }

    /// How many blocks wait, are out, settled and condemned. What is in no other place is settled. Only a failed check refuses.
    pub fn tally(&self) -> Result<Tally, Refusal>
        ensures step { StepsBy B.Map S.Map self.now tallying (tallied result) self.now }
        ensures tells { Tallies B.Map S.Map self.now result }
        ensures faulty { RefusesAll B.Map S.Map self.now (tallied result) self.now }
        ensures promised { PromisedAlways B.Map S.Map self.now }
    {
        self.sound()?;
        let waiting = self.pool.len();
        let settled = pool::others(self.pool.capacity(), waiting, self.out, self.condemned);
        Ok(Tally {
            waiting,
            out: self.out,
            settled,
            condemned: self.condemned,
        })
    }
}
