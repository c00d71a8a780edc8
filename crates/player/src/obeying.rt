// A service obeys commands, with room for a grant and a line for each.
ghost use Rattle.std.specs.Prelude.{◌≡◌, ◌+◌, ◌<◌, ◌≤◌, ℕ, length, vec_len, vec_capacity};
ghost use Rattle.service.specs.Service.{found, tallied, opening, closing, positioned};
ghost use Rattle.player.specs.declared.command.Command.TheVariants.{Commit, Abandon, Condemn};
ghost use Rattle.player.specs.Hands.{Grown};
ghost use Rattle.player.specs.Playing.{Obeys, Asks, Plays};
ghost use Rattle.player.specs.Lives.{added};

use crate::command::Command;
use crate::hand::{give_back, keep, shown, take};
use label::{BlockNumber, Label, StreamLabel};
use map::Map;
use refusal::Refusal;
use rules::{Answer, Call, Entry, Position, Tally};
use service::{Grant, Service};

fn counted(tally: Result<Tally, Refusal>) -> Answer
    ensures { result ≡ tallied tally }
{
    match tally {
        Ok(counts) => Answer::Counts(counts),
        Err(refusal) => Answer::Refused(refusal),
    }
}

fn told(block: Result<Option<u32>, Refusal>) -> Answer
    ensures { result ≡ found block }
{
    match block {
        Ok(block) => Answer::Block(block),
        Err(refusal) => Answer::Refused(refusal),
    }
}

fn opened(done: Result<(), Refusal>) -> Answer
    ensures { result ≡ opening done }
{
    match done {
        Ok(()) => Answer::Opened,
        Err(refusal) => Answer::Refused(refusal),
    }
}

fn closed(next: Result<u32, Refusal>) -> Answer
    ensures { result ≡ closing next }
{
    match next {
        Ok(next) => Answer::Closed(next),
        Err(refusal) => Answer::Refused(refusal),
    }
}

fn standing(position: Result<Position, Refusal>) -> Answer
    ensures { result ≡ positioned position }
{
    match position {
        Ok(position) => Answer::Stands(position),
        Err(refusal) => Answer::Refused(refusal),
    }
}

// Ends the grant for the number n by a commit; none is made where no grant is held for it.
fn commit<'a, L: BlockNumber, B: Map<L, Entry>, S: Map<StreamLabel, Position>>(
    service: &mut Service<'a, L, B, S>,
    held: &mut Vec<Grant>,
    n: u32,
) -> Option<(Call, Answer)>
    ensures obeys { Obeys B.Map S.Map service.old held.old.items (Commit n) result service.new held.new.items }
    ensures grown { Grown 1 (vec_len held.old) (vec_capacity held.old) (vec_len held.new) (vec_capacity held.new) }
{
    let grant = take(held, n)?;
    let id = shown(&grant);
    let ended = service.commit(grant);
    Some((Call::Commit(id), give_back(held, ended)))
}

// The same by an abandon.
fn abandon<'a, L: BlockNumber, B: Map<L, Entry>, S: Map<StreamLabel, Position>>(
    service: &mut Service<'a, L, B, S>,
    held: &mut Vec<Grant>,
    n: u32,
) -> Option<(Call, Answer)>
    ensures obeys { Obeys B.Map S.Map service.old held.old.items (Abandon n) result service.new held.new.items }
    ensures grown { Grown 1 (vec_len held.old) (vec_capacity held.old) (vec_len held.new) (vec_capacity held.new) }
{
    let grant = take(held, n)?;
    let id = shown(&grant);
    let ended = service.abandon(grant);
    Some((Call::Abandon(id), give_back(held, ended)))
}

// The same by a condemn.
fn condemn<'a, L: BlockNumber, B: Map<L, Entry>, S: Map<StreamLabel, Position>>(
    service: &mut Service<'a, L, B, S>,
    held: &mut Vec<Grant>,
    n: u32,
) -> Option<(Call, Answer)>
    ensures obeys { Obeys B.Map S.Map service.old held.old.items (Condemn n) result service.new held.new.items }
    ensures grown { Grown 1 (vec_len held.old) (vec_capacity held.old) (vec_len held.new) (vec_capacity held.new) }
{
    let grant = take(held, n)?;
    let id = shown(&grant);
    let ended = service.condemn(grant);
    Some((Call::Condemn(id), give_back(held, ended)))
}

// Makes the call that the command asks for, and answers it with its answer; none where it asks for no call.
fn obey<'a, L: BlockNumber, B: Map<L, Entry>, S: Map<StreamLabel, Position>>(
    service: &mut Service<'a, L, B, S>,
    held: &mut Vec<Grant>,
    command: Command,
) -> Option<(Call, Answer)>
    requires { vec_len held.old < vec_capacity held.old }
    ensures obeys { Obeys B.Map S.Map service.old held.old.items command result service.new held.new.items }
    ensures grown { Grown 1 (vec_len held.old) (vec_capacity held.old) (vec_len held.new) (vec_capacity held.new) }
{
    match command {
        Command::Begin(n) => Some((Call::Begin(n), keep(held, service.begin(n)))),
        Command::Append(l) => Some((Call::Append(l.number()), keep(held, service.append(l)))),
        Command::Commit(n) => commit(service, held, n),
        Command::Abandon(n) => abandon(service, held, n),
        Command::Condemn(n) => condemn(service, held, n),
        Command::Read(n) => Some((Call::Read(n), told(service.read(n)))),
        Command::Trim(n) => Some((Call::Trim(n), told(service.trim(n)))),
        Command::Open(l, first, length) => {
            let answer = opened(service.open_stream(l, first, length));
            Some((Call::Open(l.number(), first, length), answer))
        }
        Command::Close(l) => Some((Call::Close(l.number()), closed(service.close_stream(l)))),
        Command::Position(l) => Some((Call::Position(l.number()), standing(service.position(l)))),
        Command::Tally => Some((Call::Tally, counted(service.tally()))),
    }
}

fn write_down(log: &mut Vec<(Call, Answer)>, event: Option<(Call, Answer)>)
    requires { vec_len log.old < vec_capacity log.old }
    ensures line { log.new.items ≡ added log.old.items event }
    ensures grown { Grown 1 (vec_len log.old) (vec_capacity log.old) (vec_len log.new) (vec_capacity log.new) }
{
    if let Some(event) = event {
        log.push_reserved(event);
    }
}

// Obeys the command, and writes down its call with the answer.
pub(crate) fn ask<'a, L: BlockNumber, B: Map<L, Entry>, S: Map<StreamLabel, Position>>(
    service: &mut Service<'a, L, B, S>,
    held: &mut Vec<Grant>,
    log: &mut Vec<(Call, Answer)>,
    command: Command,
) -> Option<(Call, Answer)>
    requires hand { vec_len held.old < vec_capacity held.old }
    requires paper { vec_len log.old < vec_capacity log.old }
    ensures asks { Asks B.Map S.Map service.old held.old.items log.old.items command result service.new held.new.items log.new.items }
    ensures line { log.new.items ≡ added log.old.items result }
    ensures grown { Grown 1 (vec_len held.old) (vec_capacity held.old) (vec_len held.new) (vec_capacity held.new) }
    ensures log_grown { Grown 1 (vec_len log.old) (vec_capacity log.old) (vec_len log.new) (vec_capacity log.new) }
{
    let asked = obey(service, held, command);
    write_down(log, asked);
    asked
}

// Obeys the commands in order.
pub(crate) fn play<'a, L: BlockNumber, B: Map<L, Entry>, S: Map<StreamLabel, Position>>(
    service: &mut Service<'a, L, B, S>,
    held: &mut Vec<Grant>,
    log: &mut Vec<(Call, Answer)>,
    commands: &[Command],
)
    requires hand { vec_len held.old + length commands.now ≤ vec_capacity held.old }
    requires paper { vec_len log.old + length commands.now ≤ vec_capacity log.old }
    ensures plays { Plays B.Map S.Map service.old held.old.items log.old.items commands.now service.new held.new.items log.new.items }
    ensures grown { Grown (length commands.now) (vec_len held.old) (vec_capacity held.old) (vec_len held.new) (vec_capacity held.new) }
    ensures log_grown { Grown (length commands.now) (vec_len log.old) (vec_capacity log.old) (vec_len log.new) (vec_capacity log.new) }
{
    for command in commands {
        ask(service, held, log, *command);
    }
}
