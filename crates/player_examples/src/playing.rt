// What a player writes down, and what it leaves behind.
use crate::card::{Card, InRows, RowCard, counts, grant};
use crate::labels::ONE;
use checks::{check, check_eq};
use label::OldBlock;
use player::{Command, Notebook};
use refusal::Refusal;
use rules::{Answer, Call, Position};
use std::test::*;

const CARD: Card = Card {
    limit: 16,
    blocks: 3,
    entries: 4,
    streams: 1,
};

// The number of the label `ONE`: its port, channel and session side by side.
const ONE_NUMBER: u32 = 0x0100_0203;

// Every kind of command; two of the endings have no grant.
const COMMANDS: [Command; 15] = [
    Command::Begin(1),
    Command::Append(ONE),
    Command::Open(ONE, 5, 2),
    Command::Append(ONE),
    Command::Commit(5),
    Command::Commit(9),
    Command::Position(ONE),
    Command::Begin(1),
    Command::Condemn(1),
    Command::Read(5),
    Command::Trim(5),
    Command::Abandon(7),
    Command::Begin(16),
    Command::Close(ONE),
    Command::Tally,
];

fn log_of_commands() -> [(Call, Answer); 13] {
    let (fresh, streamed) = (grant(1, 0), grant(5, 1));
    let position = Position { next: 6, end: 7 };
    [
        (Call::Begin(1), Answer::Granted(fresh)),
        (
            Call::Append(ONE_NUMBER),
            Answer::Refused(Refusal::StreamNotOpen),
        ),
        (Call::Open(ONE_NUMBER, 5, 2), Answer::Opened),
        (Call::Append(ONE_NUMBER), Answer::Granted(streamed)),
        (Call::Commit(streamed), Answer::Block(Some(1))),
        (Call::Position(ONE_NUMBER), Answer::Stands(position)),
        (Call::Begin(1), Answer::Refused(Refusal::NumberBusy)),
        (Call::Condemn(fresh), Answer::Block(Some(0))),
        (Call::Read(5), Answer::Block(Some(1))),
        (Call::Trim(5), Answer::Block(Some(1))),
        (Call::Begin(16), Answer::Refused(Refusal::NumberTooLarge)),
        (Call::Close(ONE_NUMBER), Answer::Closed(6)),
        (Call::Tally, Answer::Counts(counts(2, 0, 0, 1))),
    ]
}

fn play_all(player: &mut InRows<'_, OldBlock>) -> Result<(), Fail> {
    player.play(&COMMANDS)?;
    check_eq(player.log(), &log_of_commands())
}

#[test]
fn a_list_is_written_down_in_order(rt: HostRuntime) -> Result<(), Fail> {
    let mut card = RowCard::<OldBlock>::new(rt.alloc(), CARD)?;
    let mut player = card.player(Notebook::new(rt.alloc()))?;
    let played = play_all(&mut player);
    let (_service, log) = player.finish();
    played?;
    check_eq(log.as_slice(), &log_of_commands())
}

// Asks the commands one by one, and collects the answers of those that ask for a call.
fn ask_each(player: &mut InRows<'_, OldBlock>, told: &mut Vec<(Call, Answer)>) -> Result<(), Fail> {
    for command in COMMANDS {
        if let Some(line) = player.ask(command)? {
            told.push(line)?;
        }
    }
    Ok(())
}

#[test]
fn each_answer_is_the_line_written_down(rt: HostRuntime) -> Result<(), Fail> {
    let mut card = RowCard::<OldBlock>::new(rt.alloc(), CARD)?;
    let mut player = card.player(Notebook::new(rt.alloc()))?;
    let mut told = Vec::new(rt.alloc());
    let asked = ask_each(&mut player, &mut told);
    let (_service, log) = player.finish();
    asked?;
    check_eq(told.as_slice(), &log_of_commands())?;
    check_eq(log.as_slice(), told.as_slice())
}

#[test]
fn an_ending_without_a_grant_asks_nothing(rt: HostRuntime) -> Result<(), Fail> {
    let mut card = RowCard::<OldBlock>::new(rt.alloc(), CARD)?;
    let mut player = card.player(Notebook::new(rt.alloc()))?;
    let asked = player.play(&[
        Command::Commit(0),
        Command::Abandon(1),
        Command::Condemn(2),
        Command::Abandon(u32::MAX),
    ]);
    let (service, log) = player.finish();
    asked?;
    check(log.is_empty())?;
    check_eq(service.tally(), Ok(counts(3, 0, 0, 0)))
}

// What is out goes back, the last grant first, and nothing more is written down.
// What a change was to replace is still settled.
#[test]
fn what_is_out_is_abandoned_at_the_end(rt: HostRuntime) -> Result<(), Fail> {
    let mut card = RowCard::<OldBlock>::new(rt.alloc(), CARD)?;
    let mut player = card.player(Notebook::new(rt.alloc()))?;
    let played = player.play(&[
        Command::Begin(1),
        Command::Commit(1),
        Command::Begin(1),
        Command::Begin(2),
        Command::Tally,
    ]);
    let (mut service, log) = player.finish();
    played?;
    check_eq(log.len(), 5)?;
    check_eq(
        log.last().copied(),
        Some((Call::Tally, Answer::Counts(counts(0, 2, 1, 0)))),
    )?;
    check_eq(service.tally(), Ok(counts(2, 0, 1, 0)))?;
    check_eq(service.read(1), Ok(Some(0)))?;
    check_eq(service.read(2), Ok(None))?;
    check_eq(service.write(2), Ok(2))?;
    check_eq(service.write(3), Ok(1))?;
    check_eq(service.write(4), Err(Refusal::NoBlockWaiting))
}

// With room for the commands, and more of it asked for in between.
#[test]
fn a_list_in_room_reserved_before(rt: HostRuntime) -> Result<(), Fail> {
    let mut card = RowCard::<OldBlock>::new(rt.alloc(), CARD)?;
    let mut notebook = Notebook::new(rt.alloc());
    notebook.reserve(COMMANDS.len())?;
    let mut player = card.player(notebook)?;
    let played = play_all(&mut player);
    let reserved = player.reserve(1);
    let (_service, log) = player.finish();
    played?;
    reserved?;
    check_eq(log.len(), 13)
}
