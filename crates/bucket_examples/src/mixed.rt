// Random-looking runs over 4,096 buckets that stay as full as they get, beside a plain array: the payload that each label should have.
use crate::blanks::blank;
use crate::closed::{cannot_fit, reach};
use crate::runs::step;
use crate::upkeep::well_kept;
use bucket::Bucket;
use bucket_map::BucketMap;
use checks::{check, check_eq};
use insertion::Stored;
use label::{BlockNumber, NewBlock, OldBlock};
use map::Denied;
use std::test::*;

// Twice as many as there are slots.
const LABELS: usize = 32768;

const LAST: u32 = 32767;

// The label of a place of the array. No two are the same, since the factor is odd.
fn label<L: BlockNumber>(i: u32) -> L {
    L::from(i.wrapping_mul(2654435761))
}

// What a run has met: how many puts were full, and the most moves that one made.
#[derive(Clone, Copy, PartialEq, Eq, Debug, Default)]
struct Met {
    full: usize,
    moves: usize,
}

fn payload_of(plain: &[Option<u32>], i: u32) -> Option<u32> {
    plain.get(i as usize).copied().flatten()
}

fn note(plain: &mut [Option<u32>], i: u32, payload: Option<u32>) {
    if let Some(cell) = plain.get_mut(i as usize) {
        *cell = payload;
    }
}

// Puts a label, and sees that the answer fits the array and what ask says.
fn put<L: BlockNumber>(
    map: &mut BucketMap<L, u32>,
    plain: &mut [Option<u32>],
    i: u32,
    payload: u32,
) -> Result<Result<Stored<u32>, Denied>, Fail> {
    let old = payload_of(plain, i);
    let asked = map.ask(label(i));
    let stored = map.put(label(i), payload);
    match stored {
        Ok(Stored::Replaced(was)) => check_eq(old, Some(was))?,
        Ok(Stored::Added(moves)) => check(old.is_none() && moves <= 4095)?,
        Err(Denied::Full) => check_eq(old, None)?,
    }
    check_eq(asked, stored.is_ok())?;
    if stored.is_ok() {
        note(plain, i, Some(payload));
    }
    Ok(stored)
}

impl Met {
    fn also(self, stored: Result<Stored<u32>, Denied>) -> Met {
        match stored {
            Ok(Stored::Replaced(_)) => self,
            Ok(Stored::Added(moves)) => Met {
                moves: self.moves.max(moves),
                ..self
            },
            Err(Denied::Full) => Met {
                full: self.full.wrapping_add(1),
                ..self
            },
        }
    }
}

// One call, by a random-looking number: a put, or more seldom a take or a find.
fn turn<L: BlockNumber>(
    map: &mut BucketMap<L, u32>,
    plain: &mut [Option<u32>],
    state: u64,
    met: Met,
) -> Result<Met, Fail> {
    let i = (state >> 32) as u32 & LAST;
    match state >> 60 {
        0..3 => {
            check_eq(map.take(label(i)), payload_of(plain, i))?;
            note(plain, i, None);
        }
        3..6 => check_eq(map.find(label(i)).payload, payload_of(plain, i))?,
        _ => return Ok(met.also(put(map, plain, i, (state >> 20 & 0xFFFF_FFFF) as u32)?)),
    }
    Ok(met)
}

fn turns<L: BlockNumber>(
    map: &mut BucketMap<L, u32>,
    plain: &mut [Option<u32>],
) -> Result<Met, Fail> {
    let mut state = 1;
    let mut met = Met::default();
    for _ in 0..120000 {
        state = step(state);
        met = turn(map, plain, state, met)?;
    }
    Ok(met)
}

// The map has the payloads of the array and no others; answers the last label that does not fit, if there is one.
fn agrees<L: BlockNumber>(
    map: &mut BucketMap<L, u32>,
    plain: &[Option<u32>],
) -> Result<Option<L>, Fail> {
    let mut denied = None;
    for (i, payload) in (0..).zip(plain) {
        check_eq(map.find(label(i)).payload, *payload)?;
        if !map.ask(label(i)) {
            denied = Some(label(i));
        }
    }
    check_eq(map.count(), plain.iter().flatten().count())?;
    Ok(denied)
}

// A run over an area, and why the last label that does not fit can't.
fn run<L: BlockNumber>(area: &mut [Bucket<L, u32>]) -> Result<(), Fail> {
    let mut plain = [None; LABELS];
    let mut map = BucketMap::new(area);
    let met = turns(&mut map, &mut plain)?;
    check(met.full >= 10000 && met.moves >= 5)?;
    let Some(denied) = agrees(&mut map, &plain)? else {
        return Err(Fail::new("every label fits"));
    };
    well_kept(area)?;
    let mut set = [false; 4096];
    reach(area, denied, &mut set);
    cannot_fit(area, denied, &set)
}

#[test]
fn a_long_run_of_old_line_labels() -> Result<(), Fail> {
    run(&mut [blank(OldBlock(0), 0); 4096])
}

#[test]
fn a_long_run_of_new_line_labels() -> Result<(), Fail> {
    run(&mut [blank(NewBlock(0), 0); 4096])
}
