// Players over maps of each kind, and tables of commands with what must come of them.
use bucket::{Bucket, Slot};
use bucket_map::BucketMap;
use checks::check_row;
use label::{BlockNumber, NewBlock, OldBlock, StreamLabel};
use map::Map;
use player::{Command, Notebook, Player};
use rules::{Answer, Call, Entry, GrantId, Position, Tally};
use service::Mark;
use std::alloc::{AllocError, Global};
use std::test::*;
use straight::{Row, StraightMap};

pub(crate) fn grant(number: u32, block: u32) -> GrantId {
    GrantId { number, block }
}

pub(crate) fn counts(waiting: usize, out: usize, settled: usize, condemned: usize) -> Tally {
    Tally {
        waiting,
        out,
        settled,
        condemned,
    }
}

/// What comes of a command, a refusal by its number: the number is what is promised.
#[derive(Clone, Copy, PartialEq, Eq, Debug)]
pub enum Told {
    NoCall,
    /// The number and the block.
    Granted(u32, u32),
    Block(u32),
    NoBlock,
    Opened,
    Closed(u32),
    /// The next number and the end.
    Stands(u32, u32),
    /// The blocks waiting, out, settled and condemned.
    Counts(usize, usize, usize, usize),
    Refused(u8),
}

fn outcome(asked: Option<(Call, Answer)>) -> Told {
    match asked {
        None => Told::NoCall,
        Some((_, answer)) => match answer {
            Answer::Granted(grant) => Told::Granted(grant.number, grant.block),
            Answer::Block(Some(block)) => Told::Block(block),
            Answer::Block(None) => Told::NoBlock,
            Answer::Opened => Told::Opened,
            Answer::Closed(next) => Told::Closed(next),
            Answer::Stands(position) => Told::Stands(position.next, position.end),
            Answer::Counts(n) => Told::Counts(n.waiting, n.out, n.settled, n.condemned),
            Answer::Refused(refusal) => Told::Refused(refusal.number()),
        },
    }
}

/// Asks each command, and compares what comes of it.
pub(crate) fn asks<'a, L: BlockNumber, B: Map<L, Entry>, S: Map<StreamLabel, Position>>(
    player: &mut Player<'a, L, B, S>,
    rows: &[(Command, Told)],
) -> Result<(), Fail> {
    for (i, &(command, wanted)) in rows.iter().enumerate() {
        check_row(i, outcome(player.ask(command)?), wanted)?;
    }
    Ok(())
}

/// How large a card is: `entries` counts the rows or the buckets of its block map,
/// `streams` the rows of its stream map.
#[derive(Clone, Copy)]
pub struct Card {
    pub limit: u32,
    pub blocks: usize,
    pub entries: usize,
    pub streams: usize,
}

// Areas as an earlier user may have left them.
const STALE_STREAM: Row<StreamLabel, Position> = Row {
    used: true,
    label: StreamLabel {
        port: 9,
        channel: 9,
        session: 9,
    },
    payload: Position { next: 9, end: 9 },
};

fn stale_row<L: BlockNumber>() -> Row<L, Entry> {
    Row {
        used: true,
        label: L::from(9),
        payload: Entry::Settled(9),
    }
}

fn stale_bucket<L: BlockNumber>() -> Bucket<L, Entry> {
    let slot = Slot {
        used: true,
        tag: 9,
        label: L::from(9),
        payload: Entry::Settled(9),
    };
    Bucket {
        filter: 9,
        moved: 1,
        mark: bucket::Mark {
            bucket: 0,
            parent: 0,
            slot: 0,
            joined: true,
        },
        s0: slot,
        s1: slot,
        s2: slot,
        s3: slot,
    }
}

/// Streams in rows.
pub type Streams<'a> = StraightMap<'a, StreamLabel, Position>;

/// A player whose block map is straight.
pub type InRows<'a, L> = Player<'a, L, StraightMap<'a, L, Entry>, Streams<'a>>;

/// A player whose block map is one of buckets.
pub type InBuckets<'a, L> = Player<'a, L, BucketMap<'a, L, Entry>, Streams<'a>>;

// The areas that both kinds of card have.
#[derive(Drop)]
pub struct Shelf {
    limit: u32,
    cells: Vec<u32>,
    marks: Vec<Mark>,
    streams: Vec<Row<StreamLabel, Position>>,
}

impl Shelf {
    fn new(heap: Global, card: Card) -> Result<Shelf, AllocError> {
        Ok(Shelf {
            limit: card.limit,
            cells: vec![in heap; 9u32; card.blocks]?,
            marks: vec![in heap; Mark::Condemned; card.blocks]?,
            streams: vec![in heap; STALE_STREAM; card.streams]?,
        })
    }

    fn player<'a, L: BlockNumber, B: Map<L, Entry> + Drop>(
        &'a mut self,
        entries: B,
        notebook: Notebook,
    ) -> Result<Player<'a, L, B, Streams<'a>>, Fail> {
        let limit = self.limit;
        let cells = self.cells.as_mut_slice();
        let marks = self.marks.as_mut_slice();
        let streams = StraightMap::new(self.streams.as_mut_slice());
        match Player::new(limit, cells, marks, entries, streams, notebook) {
            Ok(player) => Ok(player),
            Err((refusal, _service)) => Err(Fail::new(refusal)),
        }
    }
}

/// A card whose block map has rows.
#[derive(Drop)]
pub struct RowCard<L: BlockNumber> {
    shelf: Shelf,
    entries: Vec<Row<L, Entry>>,
}

impl<L: BlockNumber> RowCard<L> {
    pub(crate) fn new(heap: Global, card: Card) -> Result<RowCard<L>, AllocError> {
        let shelf = Shelf::new(heap, card)?;
        let entries = vec![in heap; stale_row::<L>(); card.entries]?;
        Ok(RowCard { shelf, entries })
    }

    pub(crate) fn player(&mut self, notebook: Notebook) -> Result<InRows<'_, L>, Fail> {
        let entries = StraightMap::new(self.entries.as_mut_slice());
        self.shelf.player(entries, notebook)
    }
}

/// A card whose block map has buckets.
#[derive(Drop)]
pub struct BucketCard<L: BlockNumber> {
    shelf: Shelf,
    entries: Vec<Bucket<L, Entry>>,
}

impl<L: BlockNumber> BucketCard<L> {
    pub(crate) fn new(heap: Global, card: Card) -> Result<BucketCard<L>, AllocError> {
        let shelf = Shelf::new(heap, card)?;
        let entries = vec![in heap; stale_bucket::<L>(); card.entries]?;
        Ok(BucketCard { shelf, entries })
    }

    pub(crate) fn player(&mut self, notebook: Notebook) -> Result<InBuckets<'_, L>, Fail> {
        let entries = BucketMap::new(self.entries.as_mut_slice());
        self.shelf.player(entries, notebook)
    }
}

// The player answers the rows, and lets go of what is out.
fn answers<'a, L: BlockNumber, B: Map<L, Entry> + Drop, S: Map<StreamLabel, Position> + Drop>(
    mut player: Player<'a, L, B, S>,
    rows: &[(Command, Told)],
) -> Result<(), Fail> {
    let answered = asks(&mut player, rows);
    let _done = player.finish();
    answered
}

/// Over a straight map of the line L.
pub(crate) fn in_rows<L: BlockNumber>(
    heap: Global,
    card: Card,
    rows: &[(Command, Told)],
) -> Result<(), Fail> {
    let mut card = RowCard::<L>::new(heap, card)?;
    answers(card.player(Notebook::new(heap))?, rows)
}

/// Over a bucket map of the line L.
pub(crate) fn in_buckets<L: BlockNumber>(
    heap: Global,
    card: Card,
    rows: &[(Command, Told)],
) -> Result<(), Fail> {
    let mut card = BucketCard::<L>::new(heap, card)?;
    answers(card.player(Notebook::new(heap))?, rows)
}

/// Over maps of both kinds and both lines, which have room for four numbers at least.
pub(crate) fn everywhere(
    heap: Global,
    blocks: usize,
    streams: usize,
    rows: &[(Command, Told)],
) -> Result<(), Fail> {
    let card = Card {
        limit: 16,
        blocks,
        entries: 4,
        streams,
    };
    in_rows::<OldBlock>(heap, card, rows)?;
    in_rows::<NewBlock>(heap, card, rows)?;
    in_buckets::<OldBlock>(heap, card, rows)?;
    in_buckets::<NewBlock>(heap, card, rows)
}
