// The calls that begin and end at once.
use crate::areas::{BLANK, QUIET, counts};
use checks::{check_eq, check_row};
use label::{BlockNumber, OldBlock, StreamLabel};
use map::Map;
use refusal::Refusal;
use rules::{Entry, Position};
use service::{Mark, Service};
use std::test::*;
use straight::StraightMap;

// A call that gives a block and takes it back or settles it at once.
#[derive(Clone, Copy, PartialEq, Eq, Debug)]
enum Both {
    Write(u32),
    Drop(u32),
    Spoil(u32),
}

// Each call gives the block, or is refused with the number, and leaves so many blocks in each place.
fn says<'a, L: BlockNumber, B: Map<L, Entry>, S: Map<StreamLabel, Position>>(
    service: &mut Service<'a, L, B, S>,
    rows: &[(Both, Result<u32, u8>, (usize, usize, usize, usize))],
) -> Result<(), Fail> {
    for (i, &(call, wanted, places)) in rows.iter().enumerate() {
        let answer = match call {
            Both::Write(n) => service.write(n),
            Both::Drop(n) => service.drop(n),
            Both::Spoil(n) => service.spoil(n),
        };
        check_row(i, answer.map_err(Refusal::number), wanted)?;
        let (waiting, out, settled, condemned) = places;
        check_row(
            i,
            service.tally(),
            Ok(counts(waiting, out, settled, condemned)),
        )?;
    }
    Ok(())
}

#[test]
fn writes_drops_and_spoils() -> Result<(), Fail> {
    let mut cells = [9; 3];
    let mut marks = [Mark::Condemned; 3];
    let mut entry_rows = [BLANK; 1];
    let mut stream_rows = [QUIET; 1];
    let entries = StraightMap::new(&mut entry_rows);
    let streams = StraightMap::new(&mut stream_rows);
    let mut service = Service::<OldBlock, _, _>::new(16, &mut cells, &mut marks, entries, streams);
    says(
        &mut service,
        &[
            (Both::Drop(4), Ok(0), (3, 0, 0, 0)),
            (Both::Write(4), Ok(1), (2, 0, 1, 0)),
            (Both::Spoil(4), Ok(2), (1, 0, 1, 1)),
            (Both::Write(5), Err(6), (1, 0, 1, 1)),
            (Both::Drop(5), Err(6), (1, 0, 1, 1)),
            (Both::Spoil(5), Err(6), (1, 0, 1, 1)),
            (Both::Write(16), Err(3), (1, 0, 1, 1)),
            (Both::Write(4), Ok(0), (1, 0, 1, 1)),
            (Both::Spoil(4), Ok(1), (0, 0, 1, 2)),
            (Both::Write(4), Err(5), (0, 0, 1, 2)),
            (Both::Drop(4), Err(5), (0, 0, 1, 2)),
            (Both::Spoil(5), Err(5), (0, 0, 1, 2)),
            (Both::Drop(16), Err(3), (0, 0, 1, 2)),
            (Both::Spoil(u32::MAX), Err(3), (0, 0, 1, 2)),
        ],
    )?;
    check_eq(service.read(4), Ok(Some(0)))?;
    check_eq(service.trim(4), Ok(Some(0)))?;
    check_eq(service.write(5), Ok(0))
}
