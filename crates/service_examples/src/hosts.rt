// A host that writes blocks, some of which fail.
ghost use Rattle.service_examples.specs.Helpers.{Led};

use crate::areas::{BLANK, QUIET, counts};
use crate::program;
use checks::{check_eq, check_row};
use label::{BlockNumber, OldBlock, StreamLabel};
use map::Map;
use refusal::Refusal;
use rules::{Entry, Position};
use service::{Mark, Service};
use std::test::*;
use straight::StraightMap;

// No grant comes back from a service that was led here: no ending is refused.
fn programs<'a, L: BlockNumber, B: Map<L, Entry>, S: Map<StreamLabel, Position>>(
    service: &mut Service<'a, L, B, S>,
    n: u32,
    took: bool,
) -> Result<u32, Refusal>
    requires { Led B.Map S.Map service.old }
    ensures { Led B.Map S.Map service.new }
{
    match program(service, n, took) {
        Ok(block) => Ok(block),
        Err((refusal, None)) => Err(refusal),
        Err((refusal, Some(_grant))) => Err(refusal),
    }
}

// A row has a number, whether the flash took the data, and the block or the refusal's number.
fn says<'a, L: BlockNumber, B: Map<L, Entry>, S: Map<StreamLabel, Position>>(
    service: &mut Service<'a, L, B, S>,
    rows: &[(u32, bool, Result<u32, u8>)],
) -> Result<(), Fail>
    requires { Led B.Map S.Map service.old }
{
    for (i, &(n, took, wanted)) in rows.iter().enumerate() {
        check_row(
            i,
            programs(service, n, took).map_err(Refusal::number),
            wanted,
        )?;
    }
    Ok(())
}

// What failed is condemned, and the block that is settled stays.
#[test]
fn blocks_taken_and_failed() -> Result<(), Fail> {
    let (mut cells, mut marks) = ([9; 3], [Mark::Condemned; 3]);
    let (mut entry_rows, mut stream_rows) = ([BLANK; 1], [QUIET; 1]);
    let entries = StraightMap::new(&mut entry_rows);
    let streams = StraightMap::new(&mut stream_rows);
    let mut service = Service::<OldBlock, _, _>::new(16, &mut cells, &mut marks, entries, streams);
    service.sound()?;
    says(
        &mut service,
        &[
            (7, true, Ok(0)),
            (7, false, Ok(1)),
            (8, true, Err(6)),
            (16, true, Err(3)),
            (7, true, Ok(2)),
            (7, false, Ok(0)),
            (7, true, Err(5)),
        ],
    )?;
    check_eq(service.tally(), Ok(counts(0, 0, 1, 2)))?;
    check_eq(service.read(7), Ok(Some(2)))
}
