// Each call, from its text to its field and back, at the edges of its numbers.
use call_tape::{Call, Opening};
use checks::{check, check_eq};
use label::StreamLabel;
use std::test::*;
use tape_text::{call_in, tape_of, text_of_tape};

const LOWEST: StreamLabel = StreamLabel {
    port: 0,
    channel: 0,
    session: 0,
};

const HIGHEST: StreamLabel = StreamLabel {
    port: 255,
    channel: 65_535,
    session: 255,
};

// The line says the call, its tape is this field, and the field's text is the line.
fn both_ways(rt: &HostRuntime, line: &str, call: Call, field: &[u8]) -> Result<(), Fail> {
    check_eq(call_in(line.trim_end()), Ok(Some(call)))?;
    let mut area = [0; 16];
    let count = tape_of(line.as_bytes(), &mut area)?;
    check_eq(area.get(..count), Some(field))?;
    let mut text = String::new(rt.alloc());
    check(text_of_tape(field, &mut text, &mut Vec::new(rt.alloc()))?)?;
    check_eq(text.as_str(), line)
}

#[test]
fn calls_of_a_block_number(rt: HostRuntime) -> Result<(), Fail> {
    let top = u32::MAX;
    both_ways(&rt, "write 0\n", Call::Write(0), &[1, 0, 4, 0, 0, 0, 0])?;
    both_ways(
        &rt,
        "write 4294967295\n",
        Call::Write(top),
        &[1, 0, 4, 255, 255, 255, 255],
    )?;
    both_ways(&rt, "drop 0\n", Call::Drop(0), &[2, 0, 4, 0, 0, 0, 0])?;
    both_ways(
        &rt,
        "drop 4294967295\n",
        Call::Drop(top),
        &[2, 0, 4, 255, 255, 255, 255],
    )?;
    both_ways(&rt, "spoil 0\n", Call::Spoil(0), &[3, 0, 4, 0, 0, 0, 0])?;
    both_ways(
        &rt,
        "spoil 4294967295\n",
        Call::Spoil(top),
        &[3, 0, 4, 255, 255, 255, 255],
    )
}

#[test]
fn calls_that_ask_of_a_number(rt: HostRuntime) -> Result<(), Fail> {
    let top = u32::MAX;
    both_ways(&rt, "read 0\n", Call::Read(0), &[4, 0, 4, 0, 0, 0, 0])?;
    both_ways(
        &rt,
        "read 4294967295\n",
        Call::Read(top),
        &[4, 0, 4, 255, 255, 255, 255],
    )?;
    both_ways(&rt, "trim 0\n", Call::Trim(0), &[5, 0, 4, 0, 0, 0, 0])?;
    both_ways(
        &rt,
        "trim 16909060\n",
        Call::Trim(0x0102_0304),
        &[5, 0, 4, 1, 2, 3, 4],
    )?;
    both_ways(
        &rt,
        "trim 4294967295\n",
        Call::Trim(top),
        &[5, 0, 4, 255, 255, 255, 255],
    )?;
    both_ways(&rt, "tally\n", Call::Tally, &[9, 0, 0])
}

#[test]
fn calls_of_a_stream(rt: HostRuntime) -> Result<(), Fail> {
    both_ways(
        &rt,
        "append 0 0 0\n",
        Call::Append(LOWEST),
        &[7, 0, 4, 0, 0, 0, 0],
    )?;
    both_ways(
        &rt,
        "append 255 65535 255\n",
        Call::Append(HIGHEST),
        &[7, 0, 4, 255, 255, 255, 255],
    )?;
    both_ways(
        &rt,
        "close 0 0 0\n",
        Call::Close(LOWEST),
        &[8, 0, 4, 0, 0, 0, 0],
    )?;
    both_ways(
        &rt,
        "close 255 65535 255\n",
        Call::Close(HIGHEST),
        &[8, 0, 4, 255, 255, 255, 255],
    )?;
    let stream = StreamLabel {
        port: 1,
        channel: 515,
        session: 4,
    };
    both_ways(
        &rt,
        "close 1 515 4\n",
        Call::Close(stream),
        &[8, 0, 4, 1, 2, 3, 4],
    )
}

#[test]
fn openings(rt: HostRuntime) -> Result<(), Fail> {
    both_ways(
        &rt,
        "open 0 0 0 0 0\n",
        Call::Open(Opening {
            stream: LOWEST,
            first: 0,
            length: 0,
        }),
        &[6, 0, 12, 0, 0, 0, 0, 0, 0, 0, 0, 0, 0, 0, 0],
    )?;
    both_ways(
        &rt,
        "open 255 65535 255 4294967295 4294967295\n",
        Call::Open(Opening {
            stream: HIGHEST,
            first: u32::MAX,
            length: u32::MAX,
        }),
        &[
            6, 0, 12, 255, 255, 255, 255, 255, 255, 255, 255, 255, 255, 255, 255,
        ],
    )?;
    both_ways(
        &rt,
        "open 1 515 4 84281096 151653132\n",
        Call::Open(Opening {
            stream: StreamLabel {
                port: 1,
                channel: 515,
                session: 4,
            },
            first: 0x0506_0708,
            length: 0x090A_0B0C,
        }),
        &[6, 0, 12, 1, 2, 3, 4, 5, 6, 7, 8, 9, 10, 11, 12],
    )
}
