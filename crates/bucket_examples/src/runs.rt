// Random-looking runs over eight buckets, beside a straight map and a test of placement that tries every set of buckets, and so takes nothing from the table's search.
use crate::blanks::{blank, blank_row};
use crate::upkeep::well_kept;
use bucket::Bucket;
use bucket_map::BucketMap;
use checks::{check, check_eq};
use insertion::Stored;
use label::{BlockNumber, Label, NewBlock, OldBlock};
use map::Denied;
use std::test::*;
use straight::{Row, StraightMap};

// The next of a row of random-looking numbers.
pub(crate) fn step(state: u64) -> u64 {
    state
        .wrapping_mul(6364136223846793005)
        .wrapping_add(1442695040888963407)
}

// The label at a choice of 64. Of the old line each has 0, 1 or 4 for its second bucket, so that some buckets are crowded while others have room.
fn choice<L: BlockNumber>(x: u32) -> L {
    let row = x / 8 % 8;
    L::from(x % 8 + row * row % 8 * 256 + x % 64 * 65536)
}

// The two buckets of a label, as bits.
fn homes<L: Label>(label: L) -> u32 {
    let first = label.digest() % 8;
    let second = label.digest() / 4294967296 % 8;
    (1 << first) | (1 << second)
}

// How many labels have both buckets in a set of buckets.
fn confined(labels: &[Option<u32>], set: u32) -> usize {
    labels
        .iter()
        .flatten()
        .filter(|homes| **homes & set == **homes)
        .count()
}

// Whether the labels can be placed: no set of buckets has more labels to itself than slots. Where one has, one of those labels is left over however they are placed; where none has, they can be placed, by Hall's theorem on matchings. All sets are tried.
fn placeable(labels: &[Option<u32>]) -> bool {
    (0..256u32).all(|set| confined(labels, set) <= 4 * set.count_ones() as usize)
}

// The buckets of each label held and of one more.
fn homes_with<L: BlockNumber>(plain: &StraightMap<L, u32>, more: L) -> [Option<u32>; 64] {
    let mut labels = [None; 64];
    for (x, homes_of) in (0..64u32).zip(labels.iter_mut()) {
        let label: L = choice(x);
        if label.same(more) || plain.find(label).is_some() {
            *homes_of = Some(homes(label));
        }
    }
    labels
}

// Whether the label is held or can be placed beside those held.
fn has_room<L: BlockNumber>(plain: &StraightMap<L, u32>, label: L) -> bool {
    plain.find(label).is_some() || placeable(&homes_with(plain, label))
}

// What a put of a label may answer, by whether there is room for it and what payload it had.
fn right_answer(
    stored: Result<Stored<u32>, Denied>,
    old: Option<u32>,
    room: bool,
) -> Result<(), Fail> {
    match stored {
        Ok(Stored::Replaced(payload)) => check_eq(old, Some(payload)),
        Ok(Stored::Added(moves)) => {
            check_eq(old, None)?;
            check(room && moves <= 7)
        }
        Err(Denied::Full) => {
            check_eq(old, None)?;
            check(!room)
        }
    }
}

// What a run has met: how many puts were full, how many of them while a slot was unused, and the most moves that one made. It is counted as the run goes, which keeps no list of its answers to filter.
#[derive(Clone, Copy, PartialEq, Eq, Debug, Default)]
struct Met {
    full: usize,
    crowded: usize,
    moves: usize,
}

impl Met {
    fn also(self, stored: Result<Stored<u32>, Denied>, count: usize) -> Met {
        match stored {
            Ok(Stored::Replaced(_)) => self,
            Ok(Stored::Added(moves)) => Met {
                moves: self.moves.max(moves),
                ..self
            },
            Err(Denied::Full) => Met {
                full: self.full.wrapping_add(1),
                crowded: self.crowded.wrapping_add((count < 32) as usize),
                ..self
            },
        }
    }

    fn is_telling(self) -> Result<(), Fail> {
        check(self.full >= 500 && self.crowded >= 40)?;
        check(self.moves >= 3)
    }
}

// A map and a straight map that are given the same calls.
#[derive(Drop)]
struct Both<'a, L: Label> {
    map: BucketMap<'a, L, u32>,
    plain: StraightMap<'a, L, u32>,
}

impl<'a, L: BlockNumber> Both<'a, L> {
    // Puts a label into both maps, where it fits.
    fn put(&mut self, label: L, payload: u32) -> Result<Result<Stored<u32>, Denied>, Fail> {
        let room = has_room(&self.plain, label);
        let old = self.plain.find(label);
        check_eq(self.map.ask(label), room)?;
        let stored = self.map.put(label, payload);
        right_answer(stored, old, room)?;
        check_eq(self.map.ask(label), room)?;
        if room {
            check_eq(self.plain.put(label, payload), Ok(old))?;
        }
        Ok(stored)
    }

    // Asks both maps for the payload of a label.
    fn find(&self, label: L) -> Result<(), Fail> {
        let found = self.map.find(label);
        check_eq(found.payload, self.plain.find(label))?;
        check(found.read == 1 || found.read == 2)
    }

    // One call of both maps, by a random-looking number: a put, or more seldom another.
    fn turn(&mut self, state: u64, met: Met) -> Result<Met, Fail> {
        let label: L = choice((state >> 32 & 63) as u32);
        match state >> 60 {
            0..3 => check_eq(self.map.take(label), self.plain.take(label))?,
            3..6 => self.find(label)?,
            6 => check_eq(self.map.ask(label), has_room(&self.plain, label))?,
            _ => {
                let stored = self.put(label, (state >> 40) as u32)?;
                return Ok(met.also(stored, self.map.count()));
            }
        }
        Ok(met)
    }
}

// A run of four thousand calls over an area, which is full again and again.
fn run<L: BlockNumber>(
    area: &mut [Bucket<L, u32>],
    rows: &mut [Row<L, u32>],
    seed: u64,
) -> Result<Met, Fail> {
    let mut both = Both {
        map: BucketMap::new(area),
        plain: StraightMap::new(rows),
    };
    let mut state = seed;
    let mut met = Met::default();
    for _ in 0..4000 {
        state = step(state);
        met = both.turn(state, met)?;
    }
    check_eq(both.map.count(), both.plain.count())?;
    well_kept(area)?;
    Ok(met)
}

#[test]
fn a_run_of_old_line_labels() -> Result<(), Fail> {
    let mut area = [blank(OldBlock(0), 0); 8];
    let mut rows = [blank_row(OldBlock(0), 0); 256];
    run(&mut area, &mut rows, 1)?.is_telling()
}

#[test]
fn a_run_of_new_line_labels() -> Result<(), Fail> {
    let mut area = [blank(NewBlock(0), 0); 8];
    let mut rows = [blank_row(NewBlock(0), 0); 256];
    run(&mut area, &mut rows, 1)?.is_telling()
}
