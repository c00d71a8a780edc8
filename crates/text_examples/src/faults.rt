// Every kind of bad line, with its number and its complaint.
use call_tape::Call;
use checks::check_eq;
use std::test::*;
use tape_text::{Complaint, LineFault, call_in, tape_of};
use utf8::text_in;

// The text is refused for this line.
fn refused(text: &[u8], line: usize, complaint: Complaint) -> Result<(), Fail> {
    let mut area = [0; 64];
    let fault = tape_of(text, &mut area).err();
    check_eq(fault, Some(LineFault { line, complaint }))
}

fn bad(word: usize, largest: u32) -> Complaint {
    Complaint::BadNumber { word, largest }
}

#[test]
fn words_that_name_no_call() -> Result<(), Fail> {
    refused(b"wrote 1", 1, Complaint::UnknownWord)?;
    refused(b"Write 1", 1, Complaint::UnknownWord)?;
    refused(b"write\t1", 1, Complaint::UnknownWord)?;
    refused(b"1 write", 1, Complaint::UnknownWord)?;
    refused(b"tally,", 1, Complaint::UnknownWord)?;
    refused("tally\n\nschließe 1".as_bytes(), 3, Complaint::UnknownWord)
}

#[test]
fn too_few_or_too_many_numbers() -> Result<(), Fail> {
    for line in ["write", "drop 1 2", "spoil", "read 1 2 x", "trim"] {
        refused(line.as_bytes(), 1, Complaint::WrongCount(1))?;
    }
    for line in ["append 1 2", "append 1 2 3 4", "close", "close x"] {
        refused(line.as_bytes(), 1, Complaint::WrongCount(3))?;
    }
    refused(b"open 1 2 3 4", 1, Complaint::WrongCount(5))?;
    refused(b"open 1 2 3 4 5 6", 1, Complaint::WrongCount(5))?;
    refused(b"tally 1", 1, Complaint::WrongCount(0))
}

#[test]
fn numbers_of_a_block() -> Result<(), Fail> {
    for line in [
        "write 4294967296",
        "drop 4294967296",
        "spoil 4294967296",
        "read 4294967296",
        "trim 4294967296",
        "write -1",
        "write 0x10",
        "write 1_000",
        "write +",
        "write ++1",
        "write one",
        "write 99999999999999999999999",
    ] {
        refused(line.as_bytes(), 1, bad(2, u32::MAX))?;
    }
    Ok(())
}

#[test]
fn numbers_of_a_stream(rt: HostRuntime) -> Result<(), Fail> {
    for word in ["append", "close"] {
        let port = format!(in rt.alloc(); "{word} 256 65535 255")?;
        let channel = format!(in rt.alloc(); "{word} 255 65536 255")?;
        let session = format!(in rt.alloc(); "{word} 255 65535 256")?;
        refused(port.as_bytes(), 1, bad(2, 255))?;
        refused(channel.as_bytes(), 1, bad(3, 65_535))?;
        refused(session.as_bytes(), 1, bad(4, 255))?;
    }
    Ok(())
}

#[test]
fn numbers_of_an_opening() -> Result<(), Fail> {
    refused(b"open 256 0 0 0 0", 1, bad(2, 255))?;
    refused(b"open 0 65536 0 0 0", 1, bad(3, 65_535))?;
    refused(b"open 0 0 256 0 0", 1, bad(4, 255))?;
    refused(b"open 0 0 0 4294967296 0", 1, bad(5, u32::MAX))?;
    refused(b"open 0 0 0 0 4294967296", 1, bad(6, u32::MAX))?;
    refused(b"open 0 0 x y z", 1, bad(4, 255))
}

#[test]
fn the_first_bad_line_is_named() -> Result<(), Fail> {
    refused(b"write 1\nread x\nwrote 1\ntally 1\n", 2, bad(2, u32::MAX))?;
    refused(
        b"\r\n\ntally\ntally 1\nwrote 1\n",
        4,
        Complaint::WrongCount(0),
    )
}

#[test]
fn a_text_that_is_not_utf8() -> Result<(), Fail> {
    refused(b"tally\nwrote\nread \xFF\n", 3, Complaint::NotText)?;
    refused(b"tally\r\n\ntally \xC3", 3, Complaint::NotText)?;
    refused(b"\x80", 1, Complaint::NotText)?;
    refused(b"\n\n\xED\xA0\x80\n\xFF", 3, Complaint::NotText)
}

#[test]
fn a_line_by_itself() -> Result<(), Fail> {
    check_eq(call_in("close 1 2"), Err(Complaint::WrongCount(3)))?;
    check_eq(
        call_in("open 1 2 3 4 5 x y z"),
        Err(Complaint::WrongCount(5)),
    )?;
    check_eq(
        call_in("opened 1 2 3 4 5 x y z"),
        Err(Complaint::UnknownWord),
    )?;
    check_eq(call_in(" tally "), Ok(Some(Call::Tally)))?;
    check_eq(call_in("  "), Ok(None))
}

#[test]
fn the_line_where_text_ends() -> Result<(), Fail> {
    check_eq(text_in(b"\n\xC3\xA9\n"), Ok("\né\n"))?;
    check_eq(text_in(b""), Ok(""))?;
    check_eq(text_in(b"a\nb\xC3"), Err(2))?;
    check_eq(text_in(b"a\r\n\n\xFFb\n"), Err(3))
}
