// Lines and blanks, and texts and tapes that come round again.
use call_tape::Fault;
use checks::{check, check_eq};
use refusal::Refusal;
use std::test::*;
use tape_text::{tape_of, text_of_tape};

// The text gives the tape of `read 1`, `tally` and `drop 2`.
fn three_calls(text: &str) -> Result<(), Fail> {
    let mut area = [0; 64];
    let count = tape_of(text.as_bytes(), &mut area)?;
    let wanted = [4, 0, 4, 0, 0, 0, 1, 9, 0, 0, 2, 0, 4, 0, 0, 0, 2];
    check_eq(area.get(..count), Some(wanted.as_slice()))
}

#[test]
fn blanks_and_ends_of_lines() -> Result<(), Fail> {
    three_calls("read 1\ntally\ndrop 2\n")?;
    three_calls("read 1\ntally\ndrop 2")?;
    three_calls("read 1\r\ntally\r\ndrop 2\r\n")?;
    three_calls("\n\nread 1\n   \n\r\ntally\n\ndrop 2\n\n")?;
    three_calls("  read   1  \n tally \ndrop  2 ")
}

#[test]
fn zeros_and_a_plus_before_a_number() -> Result<(), Fail> {
    three_calls("read 0001\ntally\ndrop +2")?;
    three_calls("read +1\ntally\ndrop +000000000000002")
}

#[test]
fn a_text_that_says_nothing(rt: HostRuntime) -> Result<(), Fail> {
    let mut area = [7; 2];
    for text in ["", "\n", "   ", "\r\n \n"] {
        check_eq(tape_of(text.as_bytes(), &mut area)?, 0)?;
    }
    check_eq(area, [7; 2])
}

fn sound_text(rt: &HostRuntime, tape: &[u8]) -> Result<String, Fail> {
    let mut text = String::new(rt.alloc());
    let mut faults = Vec::new(rt.alloc());
    check(text_of_tape(tape, &mut text, &mut faults)?)?;
    check(faults.is_empty())?;
    Ok(text)
}

#[test]
fn a_tape_with_faults_has_no_text(rt: HostRuntime) -> Result<(), Fail> {
    let mut text = String::new(rt.alloc());
    let mut faults = Vec::new(rt.alloc());
    let tape = [9, 0, 0, 10, 0, 0, 9, 0];
    check(!text_of_tape(&tape, &mut text, &mut faults)?)?;
    check(text.is_empty())?;
    let unknown = Fault {
        place: 3,
        refusal: Refusal::UnknownTag,
    };
    let cut = Fault {
        place: 6,
        refusal: Refusal::FieldCutShort,
    };
    check_eq(faults.as_slice(), &[unknown, cut])
}

#[test]
fn from_text_to_tape_to_text(rt: HostRuntime) -> Result<(), Fail> {
    let text = " open 1 2 3 4 5\r\n\nappend 1 2 3\nwrite +07\n\ntally\nclose 1 2 3";
    let mut area = [0; 64];
    let count = tape_of(text.as_bytes(), &mut area)?;
    let tape = area.get(..count).ok_or("no tape")?;
    check_eq(
        sound_text(&rt, tape)?.as_str(),
        "open 1 2 3 4 5\nappend 1 2 3\nwrite 7\ntally\nclose 1 2 3\n",
    )
}

#[test]
fn from_tape_to_text_to_tape(rt: HostRuntime) -> Result<(), Fail> {
    let tape = [
        9, 0, 0, 6, 0, 12, 1, 2, 3, 4, 5, 6, 7, 8, 9, 10, 11, 12, 5, 0, 4, 255, 254, 253, 252, 8,
        0, 4, 0, 1, 0, 255, 9, 0, 0,
    ];
    let text = sound_text(&rt, &tape)?;
    let mut area = [0; 64];
    let count = tape_of(text.as_bytes(), &mut area)?;
    check_eq(area.get(..count), Some(tape.as_slice()))
}
