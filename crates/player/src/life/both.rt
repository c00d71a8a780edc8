// Two players, over maps of any four kinds, that are asked the same.
ghost use Rattle.std.specs.Prelude.{◌+◌, ◌≤◌, IsOk, OnErr, length};
ghost use Rattle.player.specs.Player.{room_of, HoldsPromise, WritesLines, SizesStay, Unasked, AreEqual, GoAlike, GoOnAlike};

use super::Player;
use crate::command::Command;
use crate::twins;
use label::{BlockNumber, StreamLabel};
use map::Map;
use rules::{Entry, Position};
use std::alloc::AllocError;

/// Asks all commands, in order, on both players. Where memory runs out for either, none is asked of any.
/// Players that stood the same make the same calls, get the same answers, and stand the same again.
pub fn play_both<
    'a,
    'b,
    L: BlockNumber,
    B: Map<L, Entry>,
    S: Map<StreamLabel, Position>,
    M: BlockNumber,
    C: Map<M, Entry>,
    T: Map<StreamLabel, Position>,
>(
    one: &mut Player<'a, L, B, S>,
    other: &mut Player<'b, M, C, T>,
    commands: &[Command],
) -> Result<(), AllocError>
    ensures lines { WritesLines one.old commands.now result one.new }
    ensures other_lines { WritesLines other.old commands.now result other.new }
    ensures fixed { SizesStay one.old one.new }
    ensures other_fixed { SizesStay other.old other.new }
    ensures promised { HoldsPromise one.new }
    ensures other_promised { HoldsPromise other.new }
    ensures same { AreEqual one.old other.old → GoAlike result one.old one.new other.old other.new }
    ensures still { AreEqual one.old other.old → AreEqual one.new other.new }
    ensures onwards { AreEqual one.new other.new → GoOnAlike one.new other.new }
    ensures room { room_of one.old ≤ room_of one.new + length commands.now }
    ensures other_room { room_of other.old ≤ room_of other.new + length commands.now }
    ensures succeeds { length commands.now ≤ room_of one.old → length commands.now ≤ room_of other.old → IsOk result }
    ensures err { OnErr result (Unasked one.old one.new) }
    ensures other_err { OnErr result (Unasked other.old other.new) }
{
    one.reserve(commands.len())?;
    other.reserve(commands.len())?;
    twins::play_both(
        &mut one.service,
        &mut one.held,
        &mut one.log,
        &mut other.service,
        &mut other.held,
        &mut other.log,
        commands,
    );
    Ok(())
}
