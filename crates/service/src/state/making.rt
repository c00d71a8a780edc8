// The check before a service is made, and the making.
ghost use Rattle.std.specs.Prelude.{length};
ghost use Rattle.rules.specs.Laws.{Laws};
ghost use Rattle.service.specs.Making.{Sized, Checks, Makes, Areas};
ghost use Rattle.service.specs.Service.{limits_of};

use super::Service;
use crate::pool::{Mark, Marks, number};
use label::{BlockNumber, StreamLabel};
use map::Map;
use refusal::Refusal;
use ring::Ring;
use rules::{Entry, Position};
use std::marker::PhantomData;

// The most blocks of a card.
const MOST_BLOCKS: usize = 4096;

/// Whether a service may be made: each cell stands for a block, each block has a mark, `limit` bounds the numbers.
/// Refuses sizes that are not allowed (1), then a map that holds a pair (2). Areas and maps are only looked at.
pub fn check<L: BlockNumber, B: Map<L, Entry>, S: Map<StreamLabel, Position>>(
    limit: u32,
    cells: &[u32],
    marks: &[Mark],
    entries: &mut B,
    streams: &mut S,
) -> Result<(), Refusal>
    ensures sizes { Sized (length cells.now) (length marks.now) limit result }
    ensures maps { Checks B.Map S.Map entries.old streams.old result entries.new streams.new }
{
    let p = cells.len();
    if p == 0 || p > MOST_BLOCKS || marks.len() != p || limit == 0 {
        return Err(Refusal::BadSize);
    }
    let held = entries.count();
    let open = streams.count();
    if held != 0 || open != 0 {
        return Err(Refusal::MapNotEmpty);
    }
    Ok(())
}

impl<'a, L: BlockNumber, B: Map<L, Entry>, S: Map<StreamLabel, Position>> Service<'a, L, B, S> {
    /// A service over the caller's cells and marks and two maps, fresh where the check passes.
    /// It is made in any case: where the check fails, areas and maps stay as they were, and every call answers its refusal.
    pub fn new(
        limit: u32,
        cells: &'a mut [u32],
        marks: &'a mut [Mark],
        mut entries: B,
        mut streams: S,
    ) -> Service<'a, L, B, S>
        ensures makes { Makes B.Map S.Map cells.entry marks.entry limit entries streams result }
        ensures areas { Areas cells.entry marks.entry limit result }
        ensures laws { Laws (limits_of B.Map S.Map result) }
    {
        let fault = check::<L, B, S>(limit, cells, marks, &mut entries, &mut streams).err();
        let pool = match fault {
            None => {
                number(cells);
                marks.fill(Mark::Sound);
                Ring::full(cells)
            }
            Some(_) => Ring::new(cells),
        };
        Service {
            limit,
            pool,
            marks: Marks { cells: marks },
            entries,
            streams,
            out: 0,
            condemned: 0,
            fault,
            line: PhantomData,
        }
    }
}
