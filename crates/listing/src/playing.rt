// A player plays a tape.
ghost use Rattle.std.specs.Prelude.{◌≡◌, ◌+◌, ◌*◌, ◌≤◌, IsOk, OnOk, OnErr, vec_len, vec_capacity};
ghost use Rattle.call_tape.specs.Fields.{most_readings};
ghost use Rattle.player.specs.Player.{log_of, room_of, HoldsPromise, SizesStay, Unasked};
ghost use Rattle.listing.specs.Playing.{Adds, Played};

use crate::lines::Line;
use crate::obeying::obey;
use call_tape::{Reader, Reading, most_readings};
use label::{BlockNumber, StreamLabel};
use map::Map;
use player::Player;
use rules::{Entry, Position};
use std::alloc::AllocError;

// The line of one reading: a fault of the tape stands as it is, and a call is obeyed.
fn list<'a, L: BlockNumber, B: Map<L, Entry>, S: Map<StreamLabel, Position>>(
    player: &mut Player<'a, L, B, S>,
    reading: Reading,
) -> Line
    requires room { 2 ≤ room_of player.old }
    requires promise { HoldsPromise player.old }
    ensures adds { Adds (log_of player.old) reading result (log_of player.new) }
    ensures fixed { SizesStay player.old player.new }
    ensures promised { HoldsPromise player.new }
    ensures room { room_of player.old ≤ room_of player.new + 2 }
{
    // Not `and_then`: its contract leaves open whether the closure runs at a fault.
    let outcome = match reading.outcome {
        Ok(call) => obey(player, call),
        Err(refusal) => Err(refusal),
    };
    Line {
        place: reading.place,
        outcome,
    }
}

/// Adds the listing of a whole tape to `lines`, a line for each field, in order. A tape that is too long is one fault, and no call is made.
/// All memory is taken first: where it runs out, nothing is played and no line is added, and where there is room already it is played.
pub fn play<'a, L: BlockNumber, B: Map<L, Entry>, S: Map<StreamLabel, Position>>(
    player: &mut Player<'a, L, B, S>,
    tape: &[u8],
    lines: &mut Vec<Line>,
) -> Result<(), AllocError>
    ensures played { OnOk result (Played tape.now (log_of player.old) lines.old.items lines.new.items (log_of player.new)) }
    ensures fixed { SizesStay player.old player.new }
    ensures promised { HoldsPromise player.new }
    ensures room { room_of player.old ≤ room_of player.new + 2 * most_readings tape.now }
    ensures lent { vec_capacity lines.old ≤ vec_capacity lines.new }
    ensures unasked { OnErr result (Unasked player.old player.new) }
    ensures no_lines { OnErr result (lines.new.items ≡ lines.old.items) }
    ensures succeeds { vec_len lines.old + most_readings tape.now ≤ vec_capacity lines.old → 2 * most_readings tape.now ≤ room_of player.old → IsOk result }
{
    let most = most_readings(tape);
    player.reserve(2 * most)?;
    lines.reserve(most)?;
    match Reader::new(tape) {
        Ok(reader) => {
            for reading in reader {
                let line = list(player, reading);
                lines.push_reserved(line);
            }
        }
        Err(fault) => {
            let line = list(player, fault.into());
            lines.push_reserved(line);
        }
    }
    Ok(())
}
