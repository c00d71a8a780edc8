// Listings of the longest tape, in room that is lent or not, and behind other lines.
use crate::card::{Card, InRows, RowCard};
use crate::tapes::{listed, lists, read, reads};
use bench_card::{list_tape, most_commands};
use call_tape::most_readings;
use checks::{check, check_eq};
use label::NewBlock;
use listing::{Line, play};
use player::{Command, Notebook};
use std::test::*;

// 21,845 tallies are 65,535 bytes; with a byte more, no call is made.
#[test]
fn the_longest_tape(rt: HostRuntime) -> Result<(), Fail> {
    let mut tape = Vec::new(rt.alloc());
    for _ in 0..21_845 {
        tape.extend_from_slice(&[9, 0, 0])?;
    }
    let lines = listed(rt.alloc(), tape.as_slice())?;
    check_eq(lines.len(), 21_845)?;
    reads(rt.alloc(), &lines[0], "0 tally 8 0 0 0")?;
    reads(rt.alloc(), &lines[21_844], "65532 tally 8 0 0 0")?;
    tape.push(9)?;
    lists(&rt, tape.as_slice(), &["0 fault 1 16"])
}

// Lines go behind those that were there, in the room that was reserved.
#[test]
fn lines_in_room_that_is_lent(rt: HostRuntime) -> Result<(), Fail> {
    let tape = [9, 0, 0, 4, 0, 4, 0, 0, 0, 0];
    let mut lines = listed(rt.alloc(), &tape[..3])?;
    lines.reserve(most_readings(&tape))?;
    let mut notebook = Notebook::new(rt.alloc());
    notebook.reserve(most_commands(&tape))?;
    let room = lines.capacity();
    list_tape(&tape, notebook, &mut lines)?;
    read(
        rt.alloc(),
        lines.as_slice(),
        &["0 tally 8 0 0 0", "0 tally 8 0 0 0", "3 none"],
    )?;
    check_eq(lines.capacity(), room)
}

// With nothing reserved the listing is whole, or memory ran out and there is no line.
#[test]
fn all_lines_or_none(rt: HostRuntime) -> Result<(), Fail> {
    let mut lines = Vec::new(rt.alloc());
    let told = list_tape(&[9, 0, 0, 9, 0, 0], Notebook::new(rt.alloc()), &mut lines);
    if told.is_err() {
        return check(lines.is_empty());
    }
    read(
        rt.alloc(),
        lines.as_slice(),
        &["0 tally 8 0 0 0", "3 tally 8 0 0 0"],
    )
}

const SMALL: Card = Card {
    limit: 16,
    blocks: 2,
    entries: 2,
    streams: 1,
};

// A tape while the player has a grant out for 7, another after the grant's ending, and one that is too long.
fn plays_around(
    player: &mut InRows<'_, NewBlock>,
    tape: &[u8],
    after: &[u8],
    lines: &mut Vec<Line>,
) -> Result<(), Fail> {
    player.ask(Command::Begin(7))?;
    play(player, tape, lines)?;
    check_eq(player.log().len(), 9)?;
    player.ask(Command::Commit(7))?;
    play(player, after, lines)?;
    let long = [9; 65_536];
    play(player, &long, lines)?;
    check_eq(player.log().len(), 13)
}

#[test]
fn a_grant_out_while_a_tape_is_played(rt: HostRuntime) -> Result<(), Fail> {
    let tape = [
        1, 0, 4, 0, 0, 0, 7, 5, 0, 4, 0, 0, 0, 7, 4, 0, 4, 0, 0, 0, 7, 1, 0, 4, 0, 0, 0, 16, 1, 0,
        4, 0, 0, 0, 8, 2, 0, 4, 0, 0, 0, 9, 9, 0, 0,
    ];
    let after = [
        5, 0, 4, 0, 0, 0, 7, 4, 0, 4, 0, 0, 0, 7, 1, 0, 4, 0, 0, 0, 16,
    ];
    let mut lines = Vec::new(rt.alloc());
    let mut card = RowCard::<NewBlock>::new(rt.alloc(), SMALL)?;
    let mut player = card.player(Notebook::new(rt.alloc()))?;
    let played = plays_around(&mut player, &tape, &after, &mut lines);
    let _done = player.finish();
    played?;
    read(
        rt.alloc(),
        lines.as_slice(),
        &[
            "0 fault 3 4",
            "7 fault 3 4",
            "14 none",
            "21 fault 3 3",
            "28 ok 1",
            "35 fault 3 5",
            "42 tally 0 1 1 0",
            "0 ok 0",
            "7 none",
            "14 fault 3 3",
            "0 fault 1 16",
        ],
    )
}
