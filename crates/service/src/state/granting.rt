// The calls that send a block out.
ghost use Rattle.std.specs.Prelude.{◌≡◌};
ghost use Rattle.rules.specs.declared.Call.TheVariants.{Begin as began};
ghost use Rattle.service.specs.Stores.{Stores};
ghost use Rattle.service.specs.Service.{StepsBy, RefusesAll, Sends, Gives, Begins, given, begun};

use super::Service;
use crate::entry::{Event, advance};
use crate::grant::Grant;
use label::{BlockNumber, Label, StreamLabel};
use map::{Denied, Map};
use refusal::Refusal;
use rules::{Entry, Position};

impl<'a, L: BlockNumber, B: Map<L, Entry>, S: Map<StreamLabel, Position>> Service<'a, L, B, S> {
    /// Grants the front waiting block to the number n.
    /// Refuses, in this order, a number that is too large (3) or busy (4), an empty pool (5), a full block map (6).
    pub fn begin(&mut self, n: u32) -> Result<Grant, Refusal>
        ensures step { StepsBy B.Map S.Map self.old (began n) (begun result) self.new }
        ensures leaves { Begins B.Map S.Map self.old n result self.new }
        ensures streams { self.new.streams ≡ self.old.streams }
        ensures faulty { RefusesAll B.Map S.Map self.old (begun result) self.new }
    {
        let block = self.give(n)?;
        Ok(Grant {
            number: n,
            block,
            spent: false,
        })
    }

    // Sends the front block out at the number n.
    pub(crate) fn give(&mut self, n: u32) -> Result<u32, Refusal>
        ensures step { StepsBy B.Map S.Map self.old (began n) (given n result) self.new }
        ensures leaves { Gives B.Map S.Map self.old n result self.new }
        ensures streams { self.new.streams ≡ self.old.streams }
        ensures faulty { RefusesAll B.Map S.Map self.old (given n result) self.new }
    {
        self.sound()?;
        self.allows(n)?;
        self.send(n)
    }

    // Sends the front block out at the number n, which is allowed.
    pub(crate) fn send(&mut self, n: u32) -> Result<u32, Refusal>
        ensures leaves { Sends B.Map S.Map self.old n result self.new }
        ensures streams { self.new.streams ≡ self.old.streams }
    {
        let label = L::from(n);
        let entry = self.entries.find(label);
        let front = self.pool.front();
        // The match of entry and event tells a busy number, whatever the block, so 0 stands in where none waits.
        let event = Event::Begin(front.unwrap_or(0));
        let turn = advance(entry, event).ok_or(Refusal::NumberBusy)?;
        let b = front.ok_or(Refusal::NoBlockWaiting)?;
        store(&mut self.entries, label, turn.entry).map_err(|Denied::Full| Refusal::BlockMapFull)?;
        let _ = self.pool.pop_front();
        self.out = self.out.saturating_add(1);
        Ok(b)
    }
}

// Gives the label the entry, or none.
pub(crate) fn store<L: Label, B: Map<L, Entry>>(
    map: &mut B,
    label: L,
    entry: Option<Entry>,
) -> Result<(), Denied>
    ensures { Stores B.Map map.old (L.Label.number label) entry result map.new }
{
    match entry {
        Some(e) => {
            map.put(label, e)?;
        }
        None => {
            map.take(label);
        }
    }
    Ok(())
}
