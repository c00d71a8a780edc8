// The calls of a stream: each write of its numbers is a begin, one number after the other.
ghost use Rattle.std.specs.Prelude.{◌≡◌, ◌+◌, ◌<◌, ◌≤◌, ◌≢◌, ◌⊎◌, MatchResult};
ghost use Rattle.refusal.specs.declared.Refusal.TheVariants.{BadLength};
ghost use Rattle.rules.specs.declared.Call.TheVariants.{Append as appending, Open as opening_of, Close as closing_of, Position as position_of};
ghost use Rattle.service.specs.Service.{label_number, StepsBy, RefusesAll, Opens, Appends, Closes, Stands, begun, opening, closing, positioned, gone_on};

use super::Service;
use crate::grant::Grant;
use label::{BlockNumber, StreamLabel};
use map::{Denied, Map};
use refusal::Refusal;
use rules::{Entry, Position};

impl<'a, L: BlockNumber, B: Map<L, Entry>, S: Map<StreamLabel, Position>> Service<'a, L, B, S> {
    /// Opens the stream for `length` numbers from `first` on.
    /// Refuses, in this order, a length of 0 or a range that passes the bound (11), an open stream (8), a label that does not fit (12).
    pub fn open_stream(
        &mut self,
        label: StreamLabel,
        first: u32,
        length: u32,
    ) -> Result<(), Refusal>
        ensures step { StepsBy B.Map S.Map self.old (opening_of (label_number label) first length) (opening result) self.new }
        ensures leaves { Opens B.Map S.Map self.old (label_number label) first length result self.new }
        ensures faulty { RefusesAll B.Map S.Map self.old (opening result) self.new }
    {
        self.sound()?;
        let end = self.end_of(first, length)?;
        if self.streams.find(label).is_some() {
            return Err(Refusal::StreamAlreadyOpen);
        }
        let position = Position { next: first, end };
        match self.streams.put(label, position) {
            Ok(_) => Ok(()),
            Err(Denied::Full) => Err(Refusal::StreamMapFull),
        }
    }

    // The number behind the last of `length` numbers from `first` on, all of which must be allowed.
    fn end_of(&self, first: u32, length: u32) -> Result<u32, Refusal>
        ensures { MatchResult result (λ end. (length ≢ 0) × (end ≡ first + length) × (first + length ≤ self.now.limit)) (λ e. (e ≡ BadLength) × ((length ≡ 0) ⊎ (self.now.limit < first + length))) }
    {
        let end = first as u64 + length as u64;
        if length == 0 || (self.limit as u64) < end {
            Err(Refusal::BadLength)
        } else {
            Ok(end as u32)
        }
    }

    /// Grants the front waiting block to the next number of the stream, which then goes on by one.
    /// Refuses, in this order, a stream that is not open (9) or at its end (10), a busy number (4), an empty pool (5), a full block map (6).
    pub fn append(&mut self, label: StreamLabel) -> Result<Grant, Refusal>
        ensures step { StepsBy B.Map S.Map self.old (appending (label_number label)) (begun result) self.new }
        ensures leaves { Appends B.Map S.Map self.old (label_number label) result self.new }
        ensures faulty { RefusesAll B.Map S.Map self.old (begun result) self.new }
    {
        self.sound()?;
        let stream = self.streams.find(label).ok_or(Refusal::StreamNotOpen)?;
        if stream.next == stream.end {
            return Err(Refusal::StreamAtEnd);
        }
        let block = self.send(stream.next)?;
        // An open stream is held, so it is never denied.
        let _ = self.streams.put(label, advanced(stream));
        Ok(Grant {
            number: stream.next,
            block,
            spent: false,
        })
    }

    /// Closes the stream, and answers its next number. Refuses a stream that is not open (9).
    pub fn close_stream(&mut self, label: StreamLabel) -> Result<u32, Refusal>
        ensures step { StepsBy B.Map S.Map self.old (closing_of (label_number label)) (closing result) self.new }
        ensures leaves { Closes B.Map S.Map self.old (label_number label) result self.new }
        ensures faulty { RefusesAll B.Map S.Map self.old (closing result) self.new }
    {
        self.sound()?;
        let stream = self.streams.take(label).ok_or(Refusal::StreamNotOpen)?;
        Ok(stream.next)
    }

    /// Where the stream stands: its next number and its end. Refuses a stream that is not open (9).
    pub fn position(&mut self, label: StreamLabel) -> Result<Position, Refusal>
        ensures step { StepsBy B.Map S.Map self.old (position_of (label_number label)) (positioned result) self.new }
        ensures leaves { Stands B.Map S.Map self.old (label_number label) result self.new }
        ensures faulty { RefusesAll B.Map S.Map self.old (positioned result) self.new }
    {
        self.sound()?;
        self.streams.find(label).ok_or(Refusal::StreamNotOpen)
    }
}

// The stream goes on by one.
fn advanced(stream: Position) -> Position
    ensures { result ≡ gone_on stream }
{
    Position {
        next: stream.next.saturating_add(1),
        end: stream.end,
    }
}
