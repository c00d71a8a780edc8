// Services that their check refuses: every call answers its refusal.
ghost use Rattle.std.specs.Prelude.{◌≡◌, Some};

use crate::areas::{BLANK, QUIET, STREAM};
use checks::{check, check_eq};
use label::{BlockNumber, OldBlock, StreamLabel};
use map::Map;
use player::{Notebook, Player};
use refusal::Refusal;
use rules::{Entry, Position};
use service::{Mark, Service, check as check_sizes};
use std::alloc::Global;
use std::test::*;
use straight::{Row, StraightMap};

// What a begin is refused with; no grant comes of it.
fn refused_begin<'a, L: BlockNumber, B: Map<L, Entry>, S: Map<StreamLabel, Position>>(
    service: &mut Service<'a, L, B, S>,
    refusal: Refusal,
) -> Option<Refusal>
    requires { service.old.fault ≡ Some refusal }
    ensures { service.new.fault ≡ Some refusal }
{
    match service.begin(0) {
        Ok(_grant) => None,
        Err(e) => Some(e),
    }
}

// What an append is refused with; no grant comes of it.
fn refused_append<'a, L: BlockNumber, B: Map<L, Entry>, S: Map<StreamLabel, Position>>(
    service: &mut Service<'a, L, B, S>,
    refusal: Refusal,
) -> Option<Refusal>
    requires { service.old.fault ≡ Some refusal }
    ensures { service.new.fault ≡ Some refusal }
{
    match service.append(STREAM) {
        Ok(_grant) => None,
        Err(e) => Some(e),
    }
}

// The calls that give no grant.
fn does_nothing<'a, L: BlockNumber, B: Map<L, Entry>, S: Map<StreamLabel, Position>>(
    service: &mut Service<'a, L, B, S>,
    refusal: Refusal,
) -> Result<(), Fail> {
    check_eq(service.write(0), Err(refusal))?;
    check_eq(service.drop(0), Err(refusal))?;
    check_eq(service.spoil(0), Err(refusal))?;
    check_eq(service.read(0), Err(refusal))?;
    check_eq(service.trim(0), Err(refusal))?;
    check_eq(service.open_stream(STREAM, 0, 1), Err(refusal))?;
    check_eq(service.close_stream(STREAM), Err(refusal))?;
    check_eq(service.position(STREAM), Err(refusal))?;
    check_eq(service.tally(), Err(refusal))
}

// Every call answers the refusal with the number.
fn refuses_all<'a, L: BlockNumber, B: Map<L, Entry>, S: Map<StreamLabel, Position>>(
    service: &mut Service<'a, L, B, S>,
    number: u8,
) -> Result<(), Fail> {
    let Err(refusal) = service.sound() else {
        return Err(Fail::new("a service that was not refused"));
    };
    check_eq(refusal.number(), number)?;
    check_eq(refused_begin(service, refusal), Some(refusal))?;
    check_eq(refused_append(service, refusal), Some(refusal))?;
    does_nothing(service, refusal)?;
    check_eq(service.sound(), Err(refusal))
}

// The sizes of a card and two maps are refused with the number, by the check and by every call.
fn refuses<L: BlockNumber, B: Map<L, Entry> + Drop, S: Map<StreamLabel, Position> + Drop>(
    limit: u32,
    cells: &mut [u32],
    marks: &mut [Mark],
    mut entries: B,
    mut streams: S,
    number: u8,
) -> Result<(), Fail> {
    let verdict = check_sizes::<L, B, S>(limit, cells, marks, &mut entries, &mut streams);
    check_eq(verdict.map_err(Refusal::number), Err(number))?;
    let mut service = Service::<L, B, S>::new(limit, cells, marks, entries, streams);
    refuses_all(&mut service, number)
}

// No player is made, and the service that comes back refuses every call.
fn refuses_a_player<L: BlockNumber, B: Map<L, Entry> + Drop, S: Map<StreamLabel, Position> + Drop>(
    heap: Global,
    limit: u32,
    cells: &mut [u32],
    marks: &mut [Mark],
    entries: B,
    streams: S,
    number: u8,
) -> Result<(), Fail> {
    match Player::<L, B, S>::new(limit, cells, marks, entries, streams, Notebook::new(heap)) {
        Ok(player) => {
            let _done = player.finish();
            Err(Fail::new("a player over a refused service"))
        }
        Err((refusal, mut service)) => {
            check_eq(refusal.number(), number)?;
            refuses_all(&mut service, number)
        }
    }
}

fn wrong_size(heap: Global, limit: u32, cells: &mut [u32], marks: &mut [Mark]) -> Result<(), Fail> {
    let mut entry_rows = [BLANK; 1];
    let mut stream_rows = [QUIET; 1];
    let entries = StraightMap::new(&mut entry_rows);
    let streams = StraightMap::new(&mut stream_rows);
    refuses::<OldBlock, _, _>(limit, cells, marks, entries, streams, 1)?;
    let entries = StraightMap::new(&mut entry_rows);
    let streams = StraightMap::new(&mut stream_rows);
    refuses_a_player::<OldBlock, _, _>(heap, limit, cells, marks, entries, streams, 1)?;
    check(cells.iter().all(|cell| *cell == 9))?;
    check(marks.iter().all(|mark| *mark == Mark::Condemned))
}

// The areas stay as they were.
#[test]
fn wrong_sizes(rt: HostRuntime) -> Result<(), Fail> {
    wrong_size(rt.alloc(), 16, &mut [], &mut [])?;
    wrong_size(rt.alloc(), 16, &mut [9; 2], &mut [Mark::Condemned; 1])?;
    wrong_size(rt.alloc(), 16, &mut [9; 1], &mut [Mark::Condemned; 2])?;
    wrong_size(rt.alloc(), 0, &mut [9; 1], &mut [Mark::Condemned; 1])?;
    let mut cells = vec![in rt.alloc(); 9; 4097]?;
    let mut marks = vec![in rt.alloc(); Mark::Condemned; 4097]?;
    wrong_size(rt.alloc(), 16, cells.as_mut_slice(), marks.as_mut_slice())
}

// Over maps made by the caller, which may hold pairs.
fn refuses_both(
    heap: Global,
    limit: u32,
    settled: bool,
    open: bool,
    number: u8,
) -> Result<(), Fail> {
    let mut entry_rows = [BLANK; 2];
    let mut stream_rows = [QUIET; 2];
    let (mut cells, mut marks) = ([9; 1], [Mark::Condemned; 1]);
    let (entries, streams) = maps(&mut entry_rows, &mut stream_rows, settled, open);
    refuses::<OldBlock, _, _>(limit, &mut cells, &mut marks, entries, streams, number)?;
    let (entries, streams) = maps(&mut entry_rows, &mut stream_rows, settled, open);
    refuses_a_player::<OldBlock, _, _>(
        heap, limit, &mut cells, &mut marks, entries, streams, number,
    )
}

type Entries<'a> = StraightMap<'a, OldBlock, Entry>;

type Streams<'a> = StraightMap<'a, StreamLabel, Position>;

// Two maps, each with a pair where the caller wants one.
fn maps<'a>(
    entry_rows: &'a mut [Row<OldBlock, Entry>],
    stream_rows: &'a mut [Row<StreamLabel, Position>],
    settled: bool,
    open: bool,
) -> (Entries<'a>, Streams<'a>) {
    let mut entries = StraightMap::new(entry_rows);
    let mut streams = StraightMap::new(stream_rows);
    if settled {
        let _ = entries.put(OldBlock(5), Entry::Settled(0));
    }
    if open {
        let _ = streams.put(STREAM, Position { next: 1, end: 2 });
    }
    (entries, streams)
}

// One pair is enough, in either map; sizes are looked at first.
#[test]
fn maps_that_hold_a_pair(rt: HostRuntime) -> Result<(), Fail> {
    refuses_both(rt.alloc(), 16, true, false, 2)?;
    refuses_both(rt.alloc(), 16, false, true, 2)?;
    refuses_both(rt.alloc(), 16, true, true, 2)?;
    refuses_both(rt.alloc(), 0, true, true, 1)
}

// Maps over areas of wrong size hold nothing, so the check passes over them.
#[test]
fn maps_of_wrong_size() -> Result<(), Fail> {
    let mut entry_rows = [BLANK; 257];
    let mut stream_rows = [QUIET; 0];
    let (mut entries, mut streams) = maps(&mut entry_rows, &mut stream_rows, true, true);
    check_eq(
        check_sizes::<OldBlock, _, _>(16, &[9; 1], &[Mark::Sound; 1], &mut entries, &mut streams),
        Ok(()),
    )
}
