// The card: eight blocks, every block number of the old line but the last, entries in two buckets, four streams.
ghost use Rattle.std.specs.Prelude.{◌≡◌, ◌+◌, ◌*◌, ◌≤◌, IsOk, OnOk, OnErr, vec_len, vec_capacity};
ghost use Rattle.call_tape.specs.Fields.{most_readings};
ghost use Rattle.player.specs.Notebook.{room_in};
ghost use Rattle.bench_card.specs.Card.{Lists};

use bucket::{Bucket, Slot};
use bucket_map::BucketMap;
use call_tape::most_readings;
use label::{OldBlock, StreamLabel};
use listing::{Line, play};
use player::{Notebook, Player};
use rules::{Entry, Position};
use service::Mark;
use std::alloc::AllocError;
use straight::{Row, StraightMap};

const BLOCKS: usize = 8;

const BUCKETS: usize = 2;

const STREAMS: usize = 4;

// The bound of the block numbers: every number of 32 bits but the largest.
const BOUND: u32 = u32::MAX;

const SLOT: Slot<OldBlock, Entry> = Slot {
    used: false,
    tag: 0,
    label: OldBlock(0),
    payload: Entry::Settled(0),
};

const BUCKET: Bucket<OldBlock, Entry> = Bucket {
    filter: 0,
    moved: 0,
    mark: bucket::Mark {
        bucket: 0,
        parent: 0,
        slot: 0,
        joined: false,
    },
    s0: SLOT,
    s1: SLOT,
    s2: SLOT,
    s3: SLOT,
};

const ROW: Row<StreamLabel, Position> = Row {
    used: false,
    label: StreamLabel {
        port: 0,
        channel: 0,
        session: 0,
    },
    payload: Position { next: 0, end: 0 },
};

/// How many commands the tape may ask for: a call of a tape asks for two at most.
pub fn most_commands(tape: &[u8]) -> usize
    ensures { result ≡ 2 * most_readings tape.now }
{
    2 * most_readings(tape)
}

/// Adds the listing of the tape on a fresh card to `lines`, a line for each field.
/// Where memory runs out, no line is added; where there is room for the commands and the lines already, it doesn't.
pub fn list_tape(tape: &[u8], notebook: Notebook, lines: &mut Vec<Line>) -> Result<(), AllocError>
    ensures listed { OnOk result (Lists tape.now lines.old.items lines.new.items) }
    ensures no_lines { OnErr result (lines.new.items ≡ lines.old.items) }
    ensures lent { vec_capacity lines.old ≤ vec_capacity lines.new }
    ensures succeeds { vec_len lines.old + most_readings tape.now ≤ vec_capacity lines.old → 2 * most_readings tape.now ≤ room_in notebook → IsOk result }
{
    let mut cells = [0; BLOCKS];
    let mut marks = [Mark::Sound; BLOCKS];
    let mut buckets = [BUCKET; BUCKETS];
    let mut rows = [ROW; STREAMS];
    let entries = BucketMap::new(&mut buckets);
    let streams = StraightMap::new(&mut rows);
    match Player::new(BOUND, &mut cells, &mut marks, entries, streams, notebook) {
        Ok(mut player) => {
            let played = play(&mut player, tape, lines);
            let _done = player.finish();
            played
        }
        Err(_) => unreachable!(),
    }
}
