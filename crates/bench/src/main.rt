// The returns bench: a tape goes in on standard input, and its listing comes out, a line for each field.
#![tactic(auto)]

use anyhow::anyhow;
use bench_card::{list_tape, most_commands};
use call_tape::{LIMIT, most_readings};
use player::Notebook;
use std::env;
use std::io::{BufWriter, Read, Write};

fn main(rt: HostRuntime) -> anyhow::Result<()> {
    if env::args(&rt)?.count() > 1 {
        return Err(anyhow!("usage: bench < TAPE (the tape is read from standard input)"));
    }
    // One byte more than a tape can have: enough to tell that it is too long.
    let mut tape = Vec::new(rt.alloc());
    rt.stdin().take(LIMIT as u64 + 1).read_to_end(&mut tape)?;
    // All memory is taken here.
    let mut notebook = Notebook::new(rt.alloc());
    notebook.reserve(most_commands(&tape))?;
    let mut lines = Vec::new(rt.alloc());
    lines.reserve(most_readings(&tape))?;
    // With that much room it cannot fail.
    list_tape(&tape, notebook, &mut lines).unwrap();
    let mut out = BufWriter::new(rt.alloc(), rt.stdout())?;
    for line in &lines {
        writeln!(out, "{line}")?;
    }
    out.flush()?;
    Ok(())
}
