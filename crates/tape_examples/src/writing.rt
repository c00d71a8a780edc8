// Calls written and read back, areas with and without room, and tapes judged as a whole.
use call_tape::{Call, Fault, Opening, Reading, Writer, faults_of, readings};
use checks::{check, check_eq};
use label::StreamLabel;
use refusal::Refusal;
use std::test::*;

const LOW: StreamLabel = StreamLabel {
    port: 0,
    channel: 0,
    session: 0,
};

const MIXED: StreamLabel = StreamLabel {
    port: 1,
    channel: 0x0203,
    session: 4,
};

const HIGH: StreamLabel = StreamLabel {
    port: 255,
    channel: 65_535,
    session: 255,
};

fn opening(stream: StreamLabel, first: u32, length: u32) -> Call {
    Call::Open(Opening {
        stream,
        first,
        length,
    })
}

// The call is written as these bytes, and they are read as the call.
fn both_ways(rt: &HostRuntime, call: Call, field: &[u8]) -> Result<(), Fail> {
    let mut area = [0xEE; 20];
    let mut writer = Writer::new(&mut area);
    writer.add(call)?;
    check_eq(writer.tape(), field)?;
    let mut all = Vec::new(rt.alloc());
    readings(field, &mut all)?;
    let reading = Reading {
        place: 0,
        outcome: Ok(call),
    };
    check_eq(all.as_slice(), &[reading])
}

#[test]
fn calls_with_a_number(rt: HostRuntime) -> Result<(), Fail> {
    both_ways(&rt, Call::Write(0), &[1, 0, 4, 0, 0, 0, 0])?;
    both_ways(&rt, Call::Write(u32::MAX), &[1, 0, 4, 255, 255, 255, 255])?;
    both_ways(&rt, Call::Drop(255), &[2, 0, 4, 0, 0, 0, 255])?;
    both_ways(&rt, Call::Drop(256), &[2, 0, 4, 0, 0, 1, 0])?;
    both_ways(&rt, Call::Spoil(65_535), &[3, 0, 4, 0, 0, 255, 255])?;
    both_ways(&rt, Call::Spoil(65_536), &[3, 0, 4, 0, 1, 0, 0])?;
    both_ways(&rt, Call::Read(16_777_215), &[4, 0, 4, 0, 255, 255, 255])?;
    both_ways(&rt, Call::Read(16_777_216), &[4, 0, 4, 1, 0, 0, 0])?;
    both_ways(&rt, Call::Trim(0x0102_0304), &[5, 0, 4, 1, 2, 3, 4])?;
    both_ways(
        &rt,
        Call::Trim(u32::MAX - 1),
        &[5, 0, 4, 255, 255, 255, 254],
    )
}

#[test]
fn calls_of_a_stream(rt: HostRuntime) -> Result<(), Fail> {
    both_ways(
        &rt,
        opening(LOW, 0, 0),
        &[6, 0, 12, 0, 0, 0, 0, 0, 0, 0, 0, 0, 0, 0, 0],
    )?;
    both_ways(
        &rt,
        opening(MIXED, 0x0506_0708, 0x090A_0B0C),
        &[6, 0, 12, 1, 2, 3, 4, 5, 6, 7, 8, 9, 10, 11, 12],
    )?;
    both_ways(
        &rt,
        opening(HIGH, u32::MAX, u32::MAX),
        &[
            6, 0, 12, 255, 255, 255, 255, 255, 255, 255, 255, 255, 255, 255, 255,
        ],
    )?;
    both_ways(&rt, Call::Append(LOW), &[7, 0, 4, 0, 0, 0, 0])?;
    both_ways(&rt, Call::Append(MIXED), &[7, 0, 4, 1, 2, 3, 4])?;
    both_ways(&rt, Call::Append(HIGH), &[7, 0, 4, 255, 255, 255, 255])?;
    both_ways(&rt, Call::Close(LOW), &[8, 0, 4, 0, 0, 0, 0])?;
    both_ways(&rt, Call::Close(MIXED), &[8, 0, 4, 1, 2, 3, 4])?;
    both_ways(&rt, Call::Close(HIGH), &[8, 0, 4, 255, 255, 255, 255])
}

#[test]
fn a_tally(rt: HostRuntime) -> Result<(), Fail> {
    both_ways(&rt, Call::Tally, &[9, 0, 0])
}

// The refused call leaves the area and the tape as they were, and a shorter one still goes in.
#[test]
fn an_area_one_byte_short() -> Result<(), Fail> {
    let mut area = [0xEE; 9];
    let mut writer = Writer::new(&mut area);
    writer.add(Call::Tally)?;
    check_eq(writer.add(Call::Write(7)), Err(Refusal::AreaTooShort))?;
    check_eq(writer.add(opening(LOW, 0, 1)), Err(Refusal::AreaTooShort))?;
    writer.add(Call::Tally)?;
    check_eq(writer.tape(), &[9, 0, 0, 9, 0, 0])?;
    check_eq(area.as_slice(), &[9, 0, 0, 9, 0, 0, 0xEE, 0xEE, 0xEE])
}

#[test]
fn an_area_just_right() -> Result<(), Fail> {
    let mut area = [0xEE; 10];
    let mut writer = Writer::new(&mut area);
    writer.add(Call::Tally)?;
    writer.add(Call::Write(7))?;
    check_eq(writer.add(Call::Tally), Err(Refusal::AreaTooShort))?;
    check_eq(writer.tape(), &[9, 0, 0, 1, 0, 4, 0, 0, 0, 7])
}

#[test]
fn an_empty_area() -> Result<(), Fail> {
    let mut area = [0u8; 0];
    let mut writer = Writer::new(&mut area);
    check_eq(writer.add(Call::Tally), Err(Refusal::AreaTooShort))?;
    check(writer.tape().is_empty())
}

// 21,845 tallies are 65,535 bytes, and no area makes a tape longer.
#[test]
fn the_longest_tape(rt: HostRuntime) -> Result<(), Fail> {
    let mut area = vec![in rt.alloc(); 0xEEu8; 65_540]?;
    let mut writer = Writer::new(area.as_mut_slice());
    for _ in 0..21_845 {
        writer.add(Call::Tally)?;
    }
    check_eq(writer.add(Call::Tally), Err(Refusal::AreaTooShort))?;
    let tape = writer.tape();
    check_eq(tape.len(), 65_535)?;
    let mut faults = Vec::new(rt.alloc());
    check(faults_of(tape, &mut faults)?)?;
    check(faults.is_empty())?;
    check_eq(&area[65_532..], &[9, 0, 0, 0xEE, 0xEE, 0xEE, 0xEE, 0xEE])
}

#[test]
fn the_last_byte_stays_free(rt: HostRuntime) -> Result<(), Fail> {
    let mut area = vec![in rt.alloc(); 0xEEu8; 65_536]?;
    let mut writer = Writer::new(area.as_mut_slice());
    for n in 0..9_362 {
        writer.add(Call::Read(n))?;
    }
    check_eq(writer.add(Call::Tally), Err(Refusal::AreaTooShort))?;
    check_eq(writer.tape().len(), 65_534)
}

// The tape is sound, and its calls, written again, give it.
fn again(rt: &HostRuntime, tape: &[u8], expected: &[Call]) -> Result<(), Fail> {
    check(faults_of(tape, &mut Vec::new(rt.alloc()))?)?;
    let mut all = Vec::new(rt.alloc());
    readings(tape, &mut all)?;
    check_eq(all.len(), expected.len())?;
    let mut area = [0xEE; 64];
    let mut writer = Writer::new(&mut area);
    for (reading, call) in all.iter().zip(expected) {
        check_eq(reading.outcome, Ok(*call))?;
        writer.add(*call)?;
    }
    check_eq(writer.tape(), tape)
}

#[test]
fn sound_tapes(rt: HostRuntime) -> Result<(), Fail> {
    again(&rt, &[], &[])?;
    again(
        &rt,
        &[
            1, 0, 4, 0, 0, 0, 0, 6, 0, 12, 1, 2, 3, 4, 0, 0, 0, 5, 0, 0, 0, 6, 9, 0, 0, 8, 0, 4, 1,
            2, 3, 4,
        ],
        &[
            Call::Write(0),
            opening(MIXED, 5, 6),
            Call::Tally,
            Call::Close(MIXED),
        ],
    )
}

// The tape's faults are added behind one that was there.
fn faults(rt: &HostRuntime, tape: &[u8], expected: &[Fault]) -> Result<(), Fail> {
    let mut all = vec![in rt.alloc(); fault(77, Refusal::UnknownTag)]?;
    check(!faults_of(tape, &mut all)?)?;
    check_eq(all[0], fault(77, Refusal::UnknownTag))?;
    check_eq(&all[1..], expected)
}

fn fault(place: usize, refusal: Refusal) -> Fault {
    Fault { place, refusal }
}

#[test]
fn tapes_with_faults(rt: HostRuntime) -> Result<(), Fail> {
    faults(&rt, &[9], &[fault(0, Refusal::FieldCutShort)])?;
    faults(
        &rt,
        &[9, 0, 0, 10, 0, 0, 6, 0, 4, 1, 2, 3, 4, 9, 0, 0, 7, 0, 4, 1],
        &[
            fault(3, Refusal::UnknownTag),
            fault(6, Refusal::WrongFieldLength),
            fault(16, Refusal::FieldCutShort),
        ],
    )?;
    let long = vec![in rt.alloc(); 9u8; 65_536]?;
    faults(&rt, long.as_slice(), &[fault(0, Refusal::TapeTooLong)])
}
