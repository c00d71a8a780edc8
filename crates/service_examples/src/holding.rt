// A grant that is held: shown to another service, and while its number is asked for again.
ghost use Rattle.service.specs.Service.{Back};

use crate::areas::{BLANK, QUIET, counts};
use checks::check_eq;
use label::{BlockNumber, OldBlock, StreamLabel};
use map::Map;
use refusal::Refusal;
use rules::{Entry, Position, Tally};
use service::{Ending, Grant, Mark, Service};
use std::test::*;
use straight::StraightMap;

// By the ending as data, so that a test can go over all of them.
fn finish<'a, L: BlockNumber, B: Map<L, Entry>, S: Map<StreamLabel, Position>>(
    service: &mut Service<'a, L, B, S>,
    grant: Grant,
    ending: Ending,
) -> Result<u32, (Refusal, Grant)>
    ensures { Back grant result }
{
    match ending {
        Ending::Commit => service.commit(grant),
        Ending::Abandon => service.abandon(grant),
        Ending::Condemn => service.condemn(grant),
    }
}

// The other service refuses the grant with the number and hands it back, and its own takes it then.
fn foreign<'a, 'b, L: BlockNumber, B: Map<L, Entry>, S: Map<StreamLabel, Position>>(
    own: &mut Service<'a, L, B, S>,
    other: &mut Service<'b, L, B, S>,
    ending: Ending,
    number: u8,
) -> Result<(), Fail> {
    let grant = own.begin(7)?;
    let given = (grant.number(), grant.block());
    // Matches, since each arm moves a grant on.
    match finish(other, grant, ending) {
        Ok(_) => Err(Fail::new("a foreign grant was ended")),
        Err((refusal, same)) => {
            let back = (same.number(), same.block());
            match own.abandon(same) {
                Ok(_block) => check_eq((back, refusal.number()), (given, number)),
                Err((why, _same)) => Err(Fail::new(why)),
            }
        }
    }
}

// Each ending is refused, and neither service is changed by it.
fn foreign_each<'a, 'b, L: BlockNumber, B: Map<L, Entry>, S: Map<StreamLabel, Position>>(
    own: &mut Service<'a, L, B, S>,
    other: &mut Service<'b, L, B, S>,
    number: u8,
    tally: Result<Tally, u8>,
) -> Result<(), Fail> {
    for ending in [Ending::Commit, Ending::Abandon, Ending::Condemn] {
        foreign(own, other, ending, number)?;
        check_eq(other.tally().map_err(Refusal::number), tally)?;
        check_eq(own.tally(), Ok(counts(1, 0, 0, 0)))?;
    }
    Ok(())
}

// A grant is shown to another service with the given bound, at which some numbers are settled before.
fn shown(limit: u32, settled: &[u32], number: u8, tally: Result<Tally, u8>) -> Result<(), Fail> {
    let (mut cells, mut marks) = ([9; 1], [Mark::Sound; 1]);
    let (mut entry_rows, mut stream_rows) = ([BLANK; 1], [QUIET; 1]);
    let entries = StraightMap::new(&mut entry_rows);
    let streams = StraightMap::new(&mut stream_rows);
    let mut own = Service::<OldBlock, _, _>::new(16, &mut cells, &mut marks, entries, streams);
    let (mut other_cells, mut other_marks) = ([9; 3], [Mark::Sound; 3]);
    let (mut other_rows, mut other_streams) = ([BLANK; 3], [QUIET; 1]);
    let mut other = Service::<OldBlock, _, _>::new(
        limit,
        &mut other_cells,
        &mut other_marks,
        StraightMap::new(&mut other_rows),
        StraightMap::new(&mut other_streams),
    );
    for n in settled {
        other.write(*n)?;
    }
    foreign_each(&mut own, &mut other, number, tally)
}

// Another that is fresh, one where the grant's number or its block is settled, one whose numbers end before it,
// and one that was refused.
#[test]
fn a_grant_of_another_service() -> Result<(), Fail> {
    shown(16, &[], 7, Ok(counts(3, 0, 0, 0)))?;
    shown(16, &[7], 7, Ok(counts(2, 0, 1, 0)))?;
    shown(16, &[8, 7], 7, Ok(counts(1, 0, 2, 0)))?;
    shown(4, &[1], 7, Ok(counts(2, 0, 1, 0)))?;
    shown(0, &[], 1, Err(1))
}

// While its grant is out, a number is busy for each call that gives a block.
fn busy<'a, L: BlockNumber, B: Map<L, Entry>, S: Map<StreamLabel, Position>>(
    service: &mut Service<'a, L, B, S>,
    n: u32,
) -> Result<(), Fail> {
    let grant = service.begin(n)?;
    let told = [service.write(n), service.drop(n), service.spoil(n)];
    match service.abandon(grant) {
        Ok(_block) => check_eq(told.map(|told| told.map_err(Refusal::number)), [Err(4); 3]),
        Err((why, _grant)) => Err(Fail::new(why)),
    }
}

#[test]
fn a_busy_number() -> Result<(), Fail> {
    let (mut cells, mut marks) = ([9; 2], [Mark::Sound; 2]);
    let (mut entry_rows, mut stream_rows) = ([BLANK; 1], [QUIET; 1]);
    let entries = StraightMap::new(&mut entry_rows);
    let streams = StraightMap::new(&mut stream_rows);
    let mut service = Service::<OldBlock, _, _>::new(16, &mut cells, &mut marks, entries, streams);
    busy(&mut service, 7)?;
    check_eq(service.tally(), Ok(counts(2, 0, 0, 0)))?;
    check_eq(service.write(7), Ok(1))?;
    busy(&mut service, 7)?;
    check_eq(service.tally(), Ok(counts(1, 0, 1, 0)))?;
    check_eq(service.read(7), Ok(Some(1)))
}
