// Tapes played on the bench's card.
use crate::tapes::{call, listed, lists, open, reads};
use checks::check_eq;
use std::alloc::Global;
use std::test::*;

#[test]
fn the_sample_tape(rt: HostRuntime) -> Result<(), Fail> {
    lists(&rt, &[], &[])?;
    lists(
        &rt,
        &[
            1, 0, 4, 0, 0, 0, 0, 4, 0, 4, 0, 0, 0, 0, 4, 0, 4, 0, 0, 0, 2, 9, 0, 0, 0x7F, 0, 0,
        ],
        &[
            "0 ok 0",
            "7 ok 0",
            "14 none",
            "21 tally 7 0 1 0",
            "24 fault 2 14",
        ],
    )
}

#[test]
fn a_wrong_length_and_a_cut_field(rt: HostRuntime) -> Result<(), Fail> {
    lists(
        &rt,
        &[1, 0, 1, 0, 3, 0, 4, 0, 0, 0, 1, 9, 0, 0, 9, 0],
        &[
            "0 fault 2 15",
            "4 ok 0",
            "11 tally 7 0 0 1",
            "14 fault 1 13",
        ],
    )
}

#[test]
fn calls_of_each_tag(rt: HostRuntime) -> Result<(), Fail> {
    lists(
        &rt,
        &[
            1, 0, 4, 0, 0, 0, 5, 2, 0, 4, 0, 0, 0, 6, 3, 0, 4, 0, 0, 0, 6, 4, 0, 4, 0, 0, 0, 5, 5,
            0, 4, 0, 0, 0, 5, 6, 0, 12, 1, 0, 2, 3, 0, 0, 0, 100, 0, 0, 0, 2, 7, 0, 4, 1, 0, 2, 3,
            7, 0, 4, 1, 0, 2, 3, 7, 0, 4, 1, 0, 2, 3, 8, 0, 4, 1, 0, 2, 3, 9, 0, 0, 4, 0, 4, 0, 0,
            0, 101,
        ],
        &[
            "0 ok 0",
            "7 ok 1",
            "14 ok 2",
            "21 ok 0",
            "28 ok 0",
            "35 ok",
            "50 ok 3",
            "57 ok 4",
            "64 fault 3 10",
            "71 ok 102",
            "78 tally 5 0 2 1",
            "81 ok 4",
        ],
    )
}

#[test]
fn a_stream_with_a_field_too_short(rt: HostRuntime) -> Result<(), Fail> {
    lists(
        &rt,
        &[
            6, 0, 12, 1, 0, 2, 3, 0, 0, 0, 0, 0, 0, 0, 8, 7, 0, 4, 1, 0, 2, 3, 8, 0, 4, 1, 0, 2, 3,
            8, 0, 3, 1, 0, 2, 9, 0, 0,
        ],
        &[
            "0 ok",
            "15 ok 0",
            "22 ok 1",
            "29 fault 2 15",
            "35 tally 7 0 1 0",
        ],
    )
}

fn stream_tape(heap: Global) -> Result<Vec<u8>, Fail> {
    let mut tape = Vec::new(heap);
    call(&mut tape, 7, [1, 0, 2, 1])?;
    call(&mut tape, 8, [1, 0, 2, 1])?;
    open(&mut tape, 1, 7, 0)?;
    tape.extend_from_slice(&[6, 0, 12, 1, 0, 2, 1, 255, 255, 255, 254, 0, 0, 0, 2])?;
    open(&mut tape, 1, 5, 1)?;
    open(&mut tape, 1, 5, 1)?;
    for session in 2..=5 {
        open(&mut tape, session, 5, 1)?;
    }
    call(&mut tape, 7, [1, 0, 2, 1])?;
    call(&mut tape, 7, [1, 0, 2, 1])?;
    call(&mut tape, 8, [1, 0, 2, 1])?;
    open(&mut tape, 5, 5, 1)?;
    Ok(tape)
}

#[test]
fn faults_of_streams(rt: HostRuntime) -> Result<(), Fail> {
    let tape = stream_tape(rt.alloc())?;
    lists(
        &rt,
        tape.as_slice(),
        &[
            "0 fault 3 9",
            "7 fault 3 9",
            "14 fault 3 11",
            "29 fault 3 11",
            "44 ok",
            "59 fault 3 8",
            "74 ok",
            "89 ok",
            "104 ok",
            "119 fault 4 12",
            "134 ok 0",
            "141 fault 3 10",
            "148 ok 6",
            "155 ok",
        ],
    )
}

// Bucket 0 is full with 0, 2, 4 and 6, so the stream stays at 8; and with no block left, at 1.
#[test]
fn appends_refused_for_their_number(rt: HostRuntime) -> Result<(), Fail> {
    let mut tape = Vec::new(rt.alloc());
    open(&mut tape, 1, 8, 2)?;
    open(&mut tape, 2, 1, 9)?;
    for n in [0, 2, 4, 6] {
        call(&mut tape, 1, [0, 0, 0, n])?;
    }
    call(&mut tape, 7, [1, 0, 2, 1])?;
    for _ in 0..4 {
        call(&mut tape, 3, [0, 0, 0, 1])?;
    }
    call(&mut tape, 7, [1, 0, 2, 2])?;
    call(&mut tape, 8, [1, 0, 2, 1])?;
    call(&mut tape, 8, [1, 0, 2, 2])?;
    lists(
        &rt,
        tape.as_slice(),
        &[
            "0 ok",
            "15 ok",
            "30 ok 0",
            "37 ok 1",
            "44 ok 2",
            "51 ok 3",
            "58 fault 4 6",
            "65 ok 4",
            "72 ok 5",
            "79 ok 6",
            "86 ok 7",
            "93 fault 3 5",
            "100 ok 8",
            "107 ok 1",
        ],
    )
}

#[test]
fn nine_writes(rt: HostRuntime) -> Result<(), Fail> {
    let mut tape = Vec::new(rt.alloc());
    for n in 0..9 {
        call(&mut tape, 1, [0, 0, 0, n])?;
    }
    let lines = listed(rt.alloc(), tape.as_slice())?;
    check_eq(lines.len(), 9)?;
    reads(rt.alloc(), &lines[7], "49 ok 7")?;
    reads(rt.alloc(), &lines[8], "56 fault 3 5")
}

// Even numbers below 256 have bucket 0 alone.
// The fifth of them has no room beside four others, though blocks wait.
#[test]
fn a_number_without_room(rt: HostRuntime) -> Result<(), Fail> {
    let mut tape = Vec::new(rt.alloc());
    for n in [0, 2, 4, 6, 8, 1] {
        call(&mut tape, 1, [0, 0, 0, n])?;
    }
    call(&mut tape, 1, [255; 4])?;
    lists(
        &rt,
        tape.as_slice(),
        &[
            "0 ok 0",
            "7 ok 1",
            "14 ok 2",
            "21 ok 3",
            "28 fault 4 6",
            "35 ok 4",
            "42 fault 3 3",
        ],
    )
}

// 256 is another number whose first bucket is 0. It makes room for 6 by a move to bucket 1, and is read there.
// 8 then has no room until one of the four numbers in bucket 0 is trimmed.
#[test]
fn a_number_moves_for_another(rt: HostRuntime) -> Result<(), Fail> {
    lists(
        &rt,
        &[
            1, 0, 4, 0, 0, 1, 0, 1, 0, 4, 0, 0, 0, 0, 1, 0, 4, 0, 0, 0, 2, 1, 0, 4, 0, 0, 0, 4, 1,
            0, 4, 0, 0, 0, 6, 4, 0, 4, 0, 0, 1, 0, 1, 0, 4, 0, 0, 0, 8, 5, 0, 4, 0, 0, 0, 2, 1, 0,
            4, 0, 0, 0, 8,
        ],
        &[
            "0 ok 0",
            "7 ok 1",
            "14 ok 2",
            "21 ok 3",
            "28 ok 4",
            "35 ok 0",
            "42 fault 4 6",
            "49 ok 2",
            "56 ok 5",
        ],
    )
}
