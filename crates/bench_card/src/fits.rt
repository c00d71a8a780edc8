// Lists of commands played over maps whose fits are written out.
ghost use Rattle.std.specs.Prelude.{◌+◌, ◌≤◌, IsOk, OnErr, length};
ghost use Rattle.table.specs.Tables.{live as live_buckets};
ghost use Rattle.straight.specs.Rows.{live as live_rows};
ghost use Rattle.placement.specs.Fit.{Fits};
ghost use Rattle.map.specs.Sets.{AtMost};
ghost use Rattle.rules.specs.Calls.{limits};
ghost use Rattle.rules.specs.Promise.{Life};
ghost use Rattle.player.specs.Playing.{history};
ghost use Rattle.player.specs.Player.{service_of, log_of, blocks_of, room_of, HoldsPromise, WritesLines, SizesStay, Unasked};

use bucket_map::BucketMap;
use label::{BlockNumber, StreamLabel};
use player::{Command, Player};
use rules::{Entry, Position};
use std::alloc::AllocError;
use straight::StraightMap;

/// Asks all commands over a bucket map of any line: full is said of the placements in its buckets.
/// An area of wrong size has no buckets, and then only the empty set fits.
pub fn play_in_buckets<'a, L: BlockNumber>(
    player: &mut Player<'a, L, BucketMap<'a, L, Entry>, StraightMap<'a, StreamLabel, Position>>,
    commands: &[Command],
) -> Result<(), AllocError>
    ensures lines { WritesLines player.old commands.now result player.new }
    ensures fixed { SizesStay player.old player.new }
    ensures promised { HoldsPromise player.new }
    ensures life { let service = service_of player.new in
        let buckets = length (live_buckets service.entries.buckets.now) in
        let streams = length (live_rows service.streams.rows.now) in
        ∥ Life (limits (blocks_of player.new) service.limit (Fits L.Label buckets) (AtMost streams)) (history (log_of player.new)) ∥₁ }
    ensures room { room_of player.old ≤ room_of player.new + length commands.now }
    ensures succeeds { length commands.now ≤ room_of player.old → IsOk result }
    ensures err { OnErr result (Unasked player.old player.new) }
{
    player.play(commands)
}

/// Asks all commands over a straight map of entries: full is said of the number of its rows.
pub fn play_in_rows<'a, L: BlockNumber>(
    player: &mut Player<'a, L, StraightMap<'a, L, Entry>, StraightMap<'a, StreamLabel, Position>>,
    commands: &[Command],
) -> Result<(), AllocError>
    ensures lines { WritesLines player.old commands.now result player.new }
    ensures fixed { SizesStay player.old player.new }
    ensures promised { HoldsPromise player.new }
    ensures life { let service = service_of player.new in
        let rows = length (live_rows service.entries.rows.now) in
        let streams = length (live_rows service.streams.rows.now) in
        ∥ Life (limits (blocks_of player.new) service.limit (AtMost rows) (AtMost streams)) (history (log_of player.new)) ∥₁ }
    ensures room { room_of player.old ≤ room_of player.new + length commands.now }
    ensures succeeds { length commands.now ≤ room_of player.old → IsOk result }
    ensures err { OnErr result (Unasked player.old player.new) }
{
    player.play(commands)
}
