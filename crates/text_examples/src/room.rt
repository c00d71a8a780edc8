// The area's end, memory that is lent, and the longest tape.
use checks::{check, check_eq};
use std::alloc::{AllocError, Global};
use std::test::*;
use tape_text::{Complaint, LineFault, most_text, tape_of, text_of_tape};

fn no_room(line: usize) -> Option<LineFault> {
    let complaint = Complaint::NoRoom;
    Some(LineFault { line, complaint })
}

#[test]
fn an_area_that_is_filled() -> Result<(), Fail> {
    let text = b"tally\nwrite 1\n";
    let wanted = [9, 0, 0, 1, 0, 4, 0, 0, 0, 1];
    let mut exact = [0; 10];
    check_eq(tape_of(text, &mut exact)?, 10)?;
    check_eq(exact, wanted)
}

#[test]
fn an_area_one_byte_short() -> Result<(), Fail> {
    let text = b"tally\n\nwrite 1\nwrote 1\n";
    let mut short = [7; 9];
    check_eq(tape_of(text, &mut short).err(), no_room(3))?;
    check_eq(short, [9, 0, 0, 7, 7, 7, 7, 7, 7])?;
    let mut kept = [7; 9];
    check(tape_of(b"\xFF", &mut kept).is_err())?;
    check_eq(kept, [7; 9])?;
    let mut empty = [0; 0];
    check_eq(tape_of(text, &mut empty).err(), no_room(1))
}

// A text with just enough room takes the lines behind what it holds, and does not grow.
#[test]
fn text_in_room_that_is_lent(rt: HostRuntime) -> Result<(), Fail> {
    let tape = [9, 0, 0, 7, 0, 4, 1, 2, 3, 4];
    check_eq(most_text(&tape), 30)?;
    let mut text = String::with_capacity(rt.alloc(), 32)?;
    text.push_str("> ")?;
    let mut faults = Vec::with_capacity(rt.alloc(), 4)?;
    check(text_of_tape(&tape, &mut text, &mut faults)?)?;
    check_eq(text.as_str(), "> tally\nappend 1 515 4\n")?;
    check_eq(text.capacity(), 32)?;
    check(faults.is_empty())
}

// The text of this many tallies, whose fields have 3 bytes.
fn tallies(count: usize, heap: Global) -> Result<String, AllocError> {
    let mut text = String::new(heap);
    for _ in 0..count {
        text.push_str("tally\n")?;
    }
    Ok(text)
}

// An append of large numbers takes as much text as any byte can.
#[test]
fn the_most_text(rt: HostRuntime) -> Result<(), Fail> {
    let tape = [7, 0, 4, 255, 255, 255, 255];
    let mut text = String::new(rt.alloc());
    check(text_of_tape(&tape, &mut text, &mut Vec::new(rt.alloc()))?)?;
    check_eq(text.as_str(), "append 255 65535 255\n")?;
    check_eq(text.len(), most_text(&tape))
}

#[test]
fn the_longest_tape(rt: HostRuntime) -> Result<(), Fail> {
    let mut area = vec![in rt.alloc(); 0u8; 65_600]?;
    let longest = tallies(21_845, rt.alloc())?;
    check_eq(tape_of(longest.as_bytes(), &mut area)?, 65_535)?;
    check_eq(most_text(area.get(..65_535).ok_or("no area")?), 196_605)?;
    check_eq(most_text(&area), 0)?;
    let longer = tallies(21_846, rt.alloc())?;
    check_eq(tape_of(longer.as_bytes(), &mut area).err(), no_room(21_846))
}
