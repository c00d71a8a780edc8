// Settled blocks.
use crate::card::{Told, everywhere};
use player::Command;
use std::test::*;

#[test]
fn reads_and_trims(rt: HostRuntime) -> Result<(), Fail> {
    everywhere(
        rt.alloc(),
        2,
        1,
        &[
            (Command::Read(4), Told::NoBlock),
            (Command::Trim(4), Told::NoBlock),
            (Command::Begin(4), Told::Granted(4, 0)),
            (Command::Commit(4), Told::Block(0)),
            (Command::Read(4), Told::Block(0)),
            (Command::Trim(4), Told::Block(0)),
            (Command::Trim(4), Told::NoBlock),
            (Command::Begin(4), Told::Granted(4, 1)),
            (Command::Commit(4), Told::Block(1)),
            (Command::Tally, Told::Counts(1, 0, 1, 0)),
        ],
    )
}

// A trimmed block waits behind the others.
#[test]
fn a_trimmed_block_goes_out_last(rt: HostRuntime) -> Result<(), Fail> {
    everywhere(
        rt.alloc(),
        3,
        1,
        &[
            (Command::Begin(4), Told::Granted(4, 0)),
            (Command::Commit(4), Told::Block(0)),
            (Command::Begin(5), Told::Granted(5, 1)),
            (Command::Trim(5), Told::Refused(4)),
            (Command::Trim(4), Told::Block(0)),
            (Command::Begin(6), Told::Granted(6, 2)),
            (Command::Begin(4), Told::Granted(4, 0)),
            (Command::Tally, Told::Counts(0, 3, 0, 0)),
        ],
    )
}
