// A begin and its ending in one call, for callers that need no grant in between: each has its own name by the rules, and `pass` does what they share.
ghost use Rattle.std.specs.Prelude.{◌≡◌};
ghost use Rattle.service.specs.Service.{RefusesAll, StepsByBoth, LeavesByBoth, finished};
ghost use Rattle.service.specs.declared.entry.Ending.TheVariants.{Commit, Abandon, Condemn};

use super::Service;
use crate::entry::Ending;
use label::{BlockNumber, StreamLabel};
use map::Map;
use refusal::Refusal;
use rules::{Entry, Position};

impl<'a, L: BlockNumber, B: Map<L, Entry>, S: Map<StreamLabel, Position>> Service<'a, L, B, S> {
    /// Settles the front waiting block at the number n, and answers it. Refuses as a begin does.
    pub fn write(&mut self, n: u32) -> Result<u32, Refusal>
        ensures step { StepsByBoth B.Map S.Map self.old Commit n result self.new }
        ensures leaves { LeavesByBoth B.Map S.Map self.old Commit n result self.new }
        ensures streams { self.new.streams ≡ self.old.streams }
        ensures faulty { RefusesAll B.Map S.Map self.old (finished result) self.new }
    {
        self.pass(n, Ending::Commit)
    }

    /// Sends the front waiting block out at the number n and takes it back, and answers it. Refuses as a begin does.
    pub fn drop(&mut self, n: u32) -> Result<u32, Refusal>
        ensures step { StepsByBoth B.Map S.Map self.old Abandon n result self.new }
        ensures leaves { LeavesByBoth B.Map S.Map self.old Abandon n result self.new }
        ensures streams { self.new.streams ≡ self.old.streams }
        ensures faulty { RefusesAll B.Map S.Map self.old (finished result) self.new }
    {
        self.pass(n, Ending::Abandon)
    }

    /// Sends the front waiting block out at the number n and condemns it, and answers it. Refuses as a begin does.
    pub fn spoil(&mut self, n: u32) -> Result<u32, Refusal>
        ensures step { StepsByBoth B.Map S.Map self.old Condemn n result self.new }
        ensures leaves { LeavesByBoth B.Map S.Map self.old Condemn n result self.new }
        ensures streams { self.new.streams ≡ self.old.streams }
        ensures faulty { RefusesAll B.Map S.Map self.old (finished result) self.new }
    {
        self.pass(n, Ending::Condemn)
    }

    // The grant is given and ended within the call, so none is issued.
    fn pass(&mut self, n: u32, ending: Ending) -> Result<u32, Refusal>
        ensures step { StepsByBoth B.Map S.Map self.old ending n result self.new }
        ensures leaves { LeavesByBoth B.Map S.Map self.old ending n result self.new }
        ensures streams { self.new.streams ≡ self.old.streams }
        ensures faulty { RefusesAll B.Map S.Map self.old (finished result) self.new }
    {
        let b = self.give(n)?;
        self.end(n, b, ending)
    }
}
