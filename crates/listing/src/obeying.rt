// One call of a tape, obeyed through a player that has room for it.
ghost use Rattle.std.specs.Prelude.{◌≡◌, ◌+◌, ◌≤◌, IsSome, Ok};
ghost use Rattle.player.specs.Player.{log_of, room_of, HoldsPromise, WritesLine, SizesStay};
ghost use Rattle.listing.specs.Playing.{grant_in, request_of, ending_of, Giving, Programmed, Requested, Obeyed};

use crate::lines::{Reply, outcome};
use call_tape::Call as TapeCall;
use label::{BlockNumber, StreamLabel};
use map::Map;
use player::{Command, Player};
use refusal::Refusal;
use rules::{Answer, Call, Entry, GrantId, Position};
use service::Ending;

fn ask<'a, L: BlockNumber, B: Map<L, Entry>, S: Map<StreamLabel, Position>>(
    player: &mut Player<'a, L, B, S>,
    command: Command,
) -> Option<(Call, Answer)>
    requires { 1 ≤ room_of player.old }
    ensures line { WritesLine player.old command (Ok result) player.new }
    ensures fixed { SizesStay player.old player.new }
    ensures promised { HoldsPromise player.new }
    ensures room { room_of player.old ≤ room_of player.new + 1 }
{
    match player.ask(command) {
        Ok(asked) => asked,
        Err(_) => unreachable!(),
    }
}

// A call that ends no grant: its answer is told.
fn request<'a, L: BlockNumber, B: Map<L, Entry>, S: Map<StreamLabel, Position>>(
    player: &mut Player<'a, L, B, S>,
    command: Command,
) -> Result<Reply, Refusal>
    requires asks { IsSome (request_of command) }
    requires room { 1 ≤ room_of player.old }
    ensures told { Requested (log_of player.old) command result (log_of player.new) }
    ensures fixed { SizesStay player.old player.new }
    ensures promised { HoldsPromise player.new }
    ensures room { room_of player.old ≤ room_of player.new + 1 }
{
    match ask(player, command) {
        Some((_, answer)) => outcome(answer),
        None => unreachable!(),
    }
}

fn end_command(ending: Ending, n: u32) -> Command
    ensures { result ≡ ending_of ending n }
{
    match ending {
        Ending::Commit => Command::Commit(n),
        Ending::Abandon => Command::Abandon(n),
        Ending::Condemn => Command::Condemn(n),
    }
}

fn grant_in(answer: Answer) -> Option<GrantId>
    ensures { result ≡ grant_in answer }
{
    match answer {
        Answer::Granted(grant) => Some(grant),
        _ => None,
    }
}

// A grant, and at once its ending; no ending of a life is refused.
fn program<'a, L: BlockNumber, B: Map<L, Entry>, S: Map<StreamLabel, Position>>(
    player: &mut Player<'a, L, B, S>,
    give: Command,
    ending: Ending,
) -> Result<Reply, Refusal>
    requires gives { Giving give }
    requires room { 2 ≤ room_of player.old }
    ensures told { Programmed (log_of player.old) give ending result (log_of player.new) }
    ensures fixed { SizesStay player.old player.new }
    ensures promised { HoldsPromise player.new }
    ensures room { room_of player.old ≤ room_of player.new + 2 }
{
    let Some((_, answer)) = ask(player, give) else {
        unreachable!()
    };
    let Some(grant) = grant_in(answer) else {
        return outcome(answer);
    };
    match ask(player, end_command(ending, grant.number)) {
        Some((_, ended)) => outcome(ended),
        None => unreachable!(),
    }
}

// Carries out one call of a tape.
pub(crate) fn obey<'a, L: BlockNumber, B: Map<L, Entry>, S: Map<StreamLabel, Position>>(
    player: &mut Player<'a, L, B, S>,
    call: TapeCall,
) -> Result<Reply, Refusal>
    requires { 2 ≤ room_of player.old }
    ensures told { Obeyed (log_of player.old) call result (log_of player.new) }
    ensures fixed { SizesStay player.old player.new }
    ensures promised { HoldsPromise player.new }
    ensures room { room_of player.old ≤ room_of player.new + 2 }
{
    match call {
        TapeCall::Write(n) => program(player, Command::Begin(n), Ending::Commit),
        TapeCall::Drop(n) => program(player, Command::Begin(n), Ending::Abandon),
        TapeCall::Spoil(n) => program(player, Command::Begin(n), Ending::Condemn),
        TapeCall::Append(label) => program(player, Command::Append(label), Ending::Commit),
        TapeCall::Read(n) => request(player, Command::Read(n)),
        TapeCall::Trim(n) => request(player, Command::Trim(n)),
        TapeCall::Open(opening) => request(
            player,
            Command::Open(opening.stream, opening.first, opening.length),
        ),
        TapeCall::Close(label) => request(player, Command::Close(label)),
        TapeCall::Tally => request(player, Command::Tally),
    }
}
