// The complaints, in words.
use checks::check_eq;
use std::test::*;
use tape_text::{Complaint, LineFault};

fn told(rt: &HostRuntime, line: usize, complaint: Complaint, words: &str) -> Result<(), Fail> {
    let fault = LineFault { line, complaint };
    check_eq(format!(in rt.alloc(); "{fault}")?.as_str(), words)
}

#[test]
fn each_complaint(rt: HostRuntime) -> Result<(), Fail> {
    told(&rt, 1, Complaint::NotText, "line 1: the line is not UTF-8")?;
    told(
        &rt,
        3,
        Complaint::UnknownWord,
        "line 3: the first word names no call (write, drop, spoil, read, trim, open, append, close, tally)",
    )?;
    told(
        &rt,
        4,
        Complaint::WrongCount(5),
        "line 4: this call takes 5 numbers",
    )?;
    told(
        &rt,
        4,
        Complaint::WrongCount(1),
        "line 4: this call takes 1 number",
    )?;
    told(
        &rt,
        10,
        Complaint::WrongCount(0),
        "line 10: this call takes 0 numbers",
    )?;
    told(
        &rt,
        123,
        Complaint::BadNumber {
            word: 2,
            largest: u32::MAX,
        },
        "line 123: word 2 is not a decimal number from 0 to 4294967295",
    )?;
    told(
        &rt,
        21_846,
        Complaint::NoRoom,
        "line 21846: the tape has no room for this call (refusal 17)",
    )
}
