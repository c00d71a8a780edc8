// Tapes made field by field, and their listings read.
use bench_card::{list_tape, most_commands};
use call_tape::most_readings;
use checks::check_eq;
use listing::Line;
use player::Notebook;
use std::alloc::Global;
use std::test::*;

pub(crate) fn reads(heap: Global, line: &Line, expected: &str) -> Result<(), Fail> {
    let text = format!(in heap; "{line}")?;
    check_eq(text.as_str(), expected)
}

// The lines read just so.
pub(crate) fn read(heap: Global, lines: &[Line], expected: &[&str]) -> Result<(), Fail> {
    check_eq(lines.len(), expected.len())?;
    for (line, text) in lines.iter().zip(expected) {
        reads(heap, line, text)?;
    }
    Ok(())
}

// The listing of the tape on the bench's card, with all room reserved before.
pub(crate) fn listed(heap: Global, tape: &[u8]) -> Result<Vec<Line>, Fail> {
    let mut notebook = Notebook::new(heap);
    notebook.reserve(most_commands(tape))?;
    let mut lines = Vec::new(heap);
    lines.reserve(most_readings(tape))?;
    list_tape(tape, notebook, &mut lines)?;
    Ok(lines)
}

pub(crate) fn lists(rt: &HostRuntime, tape: &[u8], expected: &[&str]) -> Result<(), Fail> {
    let lines = listed(rt.alloc(), tape)?;
    read(rt.alloc(), lines.as_slice(), expected)
}

// An open of the stream with the session, one of four that there is room for.
pub(crate) fn open(tape: &mut Vec<u8>, session: u8, first: u8, length: u8) -> Result<(), Fail> {
    let field = [6, 0, 12, 1, 0, 2, session, 0, 0, 0, first, 0, 0, 0, length];
    Ok(tape.extend_from_slice(&field)?)
}

// A call about a number or a stream, of four bytes.
pub(crate) fn call(tape: &mut Vec<u8>, tag: u8, contents: [u8; 4]) -> Result<(), Fail> {
    tape.extend_from_slice(&[tag, 0, 4])?;
    Ok(tape.extend_from_slice(&contents)?)
}
