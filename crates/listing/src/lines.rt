// The lines of a listing, as values and as text.
ghost use Rattle.std.specs.Prelude.{◌≡◌, Some};
ghost use Rattle.listing.specs.Lines.{reply_of, outcome};
ghost use Rattle.listing.specs.Text.{line_text};

use refusal::Refusal;
use rules::{Answer, Tally};
use std::fmt;
use std::fmt::{Display, Formatter};

/// What the service said to a call of a tape.
#[derive(Clone, Copy, PartialEq, Eq, Debug)]
pub enum Reply {
    Block(u32),
    /// No block is settled at the number.
    Nothing,
    Opened,
    /// The next number of a stream.
    Next(u32),
    Counts(Tally),
}

impl From<Option<u32>> for Reply {
    ghost from_gives = { λ block reply. reply ≡ reply_of block };

    fn from(block: Option<u32>) -> Reply {
        block.map_or(Reply::Nothing, Reply::Block)
    }
}

// What the listing tells of an answer.
pub(crate) fn outcome(answer: Answer) -> Result<Reply, Refusal>
    ensures { result ≡ outcome answer }
{
    match answer {
        Answer::Granted(grant) => Ok(Reply::Block(grant.block)),
        Answer::Block(block) => Ok(block.into()),
        Answer::Opened => Ok(Reply::Opened),
        Answer::Closed(next) => Ok(Reply::Next(next)),
        Answer::Stands(position) => Ok(Reply::Next(position.next)),
        Answer::Counts(tally) => Ok(Reply::Counts(tally)),
        Answer::Refused(refusal) => Err(refusal),
    }
}

/// The place of a field on its tape, and what came of it.
// Not one generic type with a reading of the tape: its text could not be written for a type of another crate.
#[derive(Clone, Copy, PartialEq, Eq, Debug)]
pub struct Line {
    pub place: usize,
    pub outcome: Result<Reply, Refusal>,
}

impl Display for Line {
    ghost output = { λ l. Some (line_text l) };

    fn fmt<W: fmt::Write>(&self, f: &mut Formatter<W>) -> fmt::Result {
        let place = self.place;
        match self.outcome {
            Ok(Reply::Block(block)) => write!(f, "{place} ok {block}"),
            Ok(Reply::Nothing) => write!(f, "{place} none"),
            Ok(Reply::Opened) => write!(f, "{place} ok"),
            Ok(Reply::Next(next)) => write!(f, "{place} ok {next}"),
            Ok(Reply::Counts(n)) => write!(
                f,
                "{place} tally {} {} {} {}",
                n.waiting, n.out, n.settled, n.condemned
            ),
            Err(refusal) => write!(
                f,
                "{place} fault {} {}",
                refusal.layer().number(),
                refusal.number()
            ),
        }
    }
}
