// The life of one entry: what each event makes of it.
ghost use Rattle.std.specs.Prelude.{◌≡◌, Some, None};
ghost use Rattle.rules.specs.Rules.{settled_of};
ghost use Rattle.service.specs.Turns.{Turns, event_of};

use rules::Entry;

/// What happens to an entry, in the five words of the rules; a block is the one that the grant shows.
#[derive(Clone, Copy, PartialEq, Eq, Debug)]
pub enum Event {
    Begin(u32),
    Commit(u32),
    Abandon(u32),
    Condemn(u32),
    Trim,
}

/// The three ways in which a grant ends.
#[derive(Clone, Copy, PartialEq, Eq, Debug)]
pub enum Ending {
    Commit,
    Abandon,
    Condemn,
}

impl Ending {
    // No `From`: the event shows the block that the grant shows.
    pub(crate) fn event(self, block: u32) -> Event
        ensures { result ≡ event_of self block }
    {
        match self {
            Ending::Commit => Event::Commit(block),
            Ending::Abandon => Event::Abandon(block),
            Ending::Condemn => Event::Condemn(block),
        }
    }
}

/// The entry that follows, the block that returns to the pool, and the block that is lost for good.
#[derive(Clone, Copy, PartialEq, Eq, Debug)]
pub struct Turn {
    pub entry: Option<Entry>,
    pub back: Option<u32>,
    pub lost: Option<u32>,
}

// A constructor for each fate of a block, so that `advance` reads as the table of the rules.
impl Turn {
    // No block moves.
    fn to(entry: Option<Entry>) -> Turn
        ensures { result ≡ record { entry = entry; back = None; lost = None } }
    {
        Turn {
            entry,
            back: None,
            lost: None,
        }
    }

    // The block returns to the pool.
    fn freeing(entry: Option<Entry>, block: u32) -> Turn
        ensures { result ≡ record { entry = entry; back = Some block; lost = None } }
    {
        Turn {
            entry,
            back: Some(block),
            lost: None,
        }
    }

    // The block is lost for good.
    fn losing(entry: Option<Entry>, block: u32) -> Turn
        ensures { result ≡ record { entry = entry; back = None; lost = Some block } }
    {
        Turn {
            entry,
            back: None,
            lost: Some(block),
        }
    }
}

/// What the event makes of the entry; none where the entry does not allow it. One match on both, so that each pair of the two stands in one place.
pub fn advance(entry: Option<Entry>, event: Event) -> Option<Turn>
    ensures { Turns entry event result }
{
    match (entry, event) {
        (None, Event::Begin(b)) => Some(Turn::to(Some(Entry::Fresh(b)))),
        (Some(Entry::Settled(o)), Event::Begin(b)) => Some(Turn::to(Some(Entry::Change(o, b)))),
        (Some(Entry::Fresh(x)), Event::Commit(b)) if x == b => Some(Turn::to(Some(Entry::Settled(
            b,
        )))),
        (Some(Entry::Change(o, x)), Event::Commit(b)) if x == b => Some(Turn::freeing(
            Some(Entry::Settled(b)),
            o,
        )),
        (Some(Entry::Fresh(x)), Event::Abandon(b)) if x == b => Some(Turn::freeing(None, b)),
        (Some(Entry::Change(o, x)), Event::Abandon(b)) if x == b => Some(Turn::freeing(
            Some(Entry::Settled(o)),
            b,
        )),
        (Some(Entry::Fresh(x)), Event::Condemn(b)) if x == b => Some(Turn::losing(None, b)),
        (Some(Entry::Change(o, x)), Event::Condemn(b)) if x == b => Some(Turn::losing(
            Some(Entry::Settled(o)),
            b,
        )),
        (Some(Entry::Settled(o)), Event::Trim) => Some(Turn::freeing(None, o)),
        (None, Event::Trim) => Some(Turn::to(None)),
        _ => None,
    }
}

/// The block that a read finds: what is settled, also while a change is under way.
pub fn settled_block(entry: Option<Entry>) -> Option<u32>
    ensures { result ≡ settled_of entry }
{
    match entry {
        Some(Entry::Settled(o)) | Some(Entry::Change(o, _)) => Some(o),
        Some(Entry::Fresh(_)) | None => None,
    }
}
