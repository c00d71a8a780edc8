// The calls that end a grant: each has its own name by the rules, and `finish` does what they share.
ghost use Rattle.std.specs.Prelude.{◌≡◌};
ghost use Rattle.service.specs.Service.{StepsBy, RefusesAll, Ends, Finishes, Back, end_call, finished, ended, grant_id, plain};
ghost use Rattle.service.specs.declared.entry.Ending.TheVariants.{Commit, Abandon, Condemn};

use super::Service;
use super::granting::store;
use crate::entry::{Ending, advance};
use crate::grant::Grant;
use crate::pool;
use label::{BlockNumber, StreamLabel};
use map::Map;
use refusal::Refusal;
use rules::{Entry, Position};

impl<'a, L: BlockNumber, B: Map<L, Entry>, S: Map<StreamLabel, Position>> Service<'a, L, B, S> {
    /// Settles the block of the grant at its number, and answers it; the block that it replaces returns to the pool.
    /// Refuses a grant whose block is not out here for its number (7), and hands it back.
    pub fn commit(&mut self, grant: Grant) -> Result<u32, (Refusal, Grant)>
        ensures step { StepsBy B.Map S.Map self.old (end_call Commit (plain grant)) (ended result) self.new }
        ensures leaves { Finishes B.Map S.Map self.old Commit grant result self.new }
        ensures streams { self.new.streams ≡ self.old.streams }
        ensures faulty { RefusesAll B.Map S.Map self.old (ended result) self.new }
        ensures back { Back grant result }
    {
        self.finish(grant, Ending::Commit)
    }

    /// Undoes the begin of the grant; its block returns to the pool, and is answered.
    /// Refuses a grant whose block is not out here for its number (7), and hands it back.
    pub fn abandon(&mut self, grant: Grant) -> Result<u32, (Refusal, Grant)>
        ensures step { StepsBy B.Map S.Map self.old (end_call Abandon (plain grant)) (ended result) self.new }
        ensures leaves { Finishes B.Map S.Map self.old Abandon grant result self.new }
        ensures streams { self.new.streams ≡ self.old.streams }
        ensures faulty { RefusesAll B.Map S.Map self.old (ended result) self.new }
        ensures back { Back grant result }
    {
        self.finish(grant, Ending::Abandon)
    }

    /// Undoes the begin of the grant; its block failed, is never given again, and is answered.
    /// Refuses a grant whose block is not out here for its number (7), and hands it back.
    pub fn condemn(&mut self, grant: Grant) -> Result<u32, (Refusal, Grant)>
        ensures step { StepsBy B.Map S.Map self.old (end_call Condemn (plain grant)) (ended result) self.new }
        ensures leaves { Finishes B.Map S.Map self.old Condemn grant result self.new }
        ensures streams { self.new.streams ≡ self.old.streams }
        ensures faulty { RefusesAll B.Map S.Map self.old (ended result) self.new }
        ensures back { Back grant result }
    {
        self.finish(grant, Ending::Condemn)
    }

    // A refused ending hands the grant back, so that no grant is lost by it. The ending is data and no closure: the rules and this contract speak of it. Both arms move the grant, so this is no `map_err`.
    fn finish(&mut self, grant: Grant, ending: Ending) -> Result<u32, (Refusal, Grant)>
        ensures step { StepsBy B.Map S.Map self.old (end_call ending (plain grant)) (ended result) self.new }
        ensures leaves { Finishes B.Map S.Map self.old ending grant result self.new }
        ensures streams { self.new.streams ≡ self.old.streams }
        ensures faulty { RefusesAll B.Map S.Map self.old (ended result) self.new }
        ensures back { Back grant result }
    {
        match self.end(grant.number(), grant.block(), ending) {
            Ok(b) => {
                grant.spend();
                Ok(b)
            }
            Err(e) => Err((e, grant)),
        }
    }

    // Ends the grant of the block b for the number n.
    pub(crate) fn end(&mut self, n: u32, b: u32, ending: Ending) -> Result<u32, Refusal>
        ensures step { StepsBy B.Map S.Map self.old (end_call ending (grant_id n b)) (finished result) self.new }
        ensures leaves { Ends B.Map S.Map self.old ending n b result self.new }
        ensures streams { self.new.streams ≡ self.old.streams }
        ensures faulty { RefusesAll B.Map S.Map self.old (finished result) self.new }
    {
        self.sound()?;
        let label = L::from(n);
        let entry = self.entries.find(label);
        let turn = advance(entry, ending.event(b)).ok_or(Refusal::NoSuchGrant)?;
        // An entry with a block out is held, so it is never denied.
        let _ = store(&mut self.entries, label, turn.entry);
        pool::release(&mut self.pool, turn.back);
        self.marks.condemn(turn.lost);
        self.out = self.out.saturating_sub(1);
        self.condemned = pool::count_lost(self.condemned, turn.lost);
        Ok(b)
    }
}
