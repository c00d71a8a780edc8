// Makes call tapes from text, and text from call tapes. Both go in on standard input, and come out on standard output.
#![tactic(auto)]

use anyhow::{anyhow, bail};
use call_tape::{LIMIT, most_readings};
use std::env;
use std::io::{Read, Write};
use tape_text::{most_text, tape_of, text_of_tape};

const USAGE: &str = "usage: tape encode < TEXT > TAPE, or tape decode < TAPE > TEXT";

#[derive(Clone, Copy)]
enum Direction {
    Encode,
    Decode,
}

// The direction that the arguments behind the program's name ask for.
fn asked_direction(arguments: &[String]) -> Option<Direction> {
    let [_, word] = arguments else {
        return None;
    };
    match word.as_str() {
        "encode" => Some(Direction::Encode),
        "decode" => Some(Direction::Decode),
        _ => None,
    }
}

// Writes the tape of the text, or nothing where a line cannot be read.
fn encode(rt: &HostRuntime, text: &[u8]) -> anyhow::Result<()> {
    let mut area = vec![in rt.alloc(); 0u8; LIMIT]?;
    let count = tape_of(text, area.as_mut_slice())?;
    area.truncate(count);
    rt.stdout().write_all(area.as_slice())?;
    eprintln!(rt; "bytes of tape: {count}")?;
    Ok(())
}

// Writes the text of a sound tape, or nothing but the faults of another.
fn decode(rt: &HostRuntime, tape: &[u8]) -> anyhow::Result<()> {
    let mut text = String::with_capacity(rt.alloc(), most_text(tape))?;
    let mut faults = Vec::with_capacity(rt.alloc(), most_readings(tape))?;
    // With that much room it cannot fail.
    let sound = text_of_tape(tape, &mut text, &mut faults).unwrap();
    if !sound {
        for fault in &faults {
            eprintln!(rt; "{fault}")?;
        }
        bail!("faults on the tape: {}; no text is written", faults.len())
    }
    rt.stdout().write_all(text.as_bytes())?;
    eprintln!(rt; "bytes of text: {}", text.len())?;
    Ok(())
}

fn main(rt: HostRuntime) -> anyhow::Result<()> {
    let arguments: Vec<String> = env::args(&rt)?.collect(rt.alloc())?;
    let direction = asked_direction(&arguments).ok_or(anyhow!("{USAGE}"))?;
    let mut input = Vec::new(rt.alloc());
    rt.stdin().read_to_end(&mut input)?;
    match direction {
        Direction::Encode => encode(&rt, input.as_slice()),
        Direction::Decode => decode(&rt, input.as_slice()),
    }
}
