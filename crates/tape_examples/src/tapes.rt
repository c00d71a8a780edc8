// Tapes of every call and of every fault.
use call_tape::{Call, Fault, Reader, Reading, most_readings, readings};
use checks::{check, check_eq};
use refusal::Refusal;
use std::test::*;

fn made(place: usize, call: Call) -> Reading {
    Reading {
        place,
        outcome: Ok(call),
    }
}

fn refused(place: usize, refusal: Refusal) -> Reading {
    Reading {
        place,
        outcome: Err(refusal),
    }
}

// The tape says just these readings.
fn says(rt: &HostRuntime, tape: &[u8], expected: &[Reading]) -> Result<(), Fail> {
    let mut all = Vec::new(rt.alloc());
    readings(tape, &mut all)?;
    check_eq(all.as_slice(), expected)
}

#[test]
fn an_empty_tape_says_nothing(rt: HostRuntime) -> Result<(), Fail> {
    says(&rt, &[], &[])
}

#[test]
fn a_wrong_length(rt: HostRuntime) -> Result<(), Fail> {
    for tag in 1..=5 {
        says(
            &rt,
            &[tag, 0, 3, 0, 0, 0],
            &[refused(0, Refusal::WrongFieldLength)],
        )?;
        says(
            &rt,
            &[tag, 0, 5, 0, 0, 0, 0, 0],
            &[refused(0, Refusal::WrongFieldLength)],
        )?;
    }
    for tag in 7..=8 {
        says(&rt, &[tag, 0, 0], &[refused(0, Refusal::WrongFieldLength)])?;
        says(
            &rt,
            &[tag, 0, 5, 0, 0, 0, 0, 0],
            &[refused(0, Refusal::WrongFieldLength)],
        )?;
    }
    says(
        &rt,
        &[6, 0, 11, 0, 0, 0, 0, 0, 0, 0, 0, 0, 0, 0],
        &[refused(0, Refusal::WrongFieldLength)],
    )?;
    says(
        &rt,
        &[6, 0, 13, 0, 0, 0, 0, 0, 0, 0, 0, 0, 0, 0, 0, 0],
        &[refused(0, Refusal::WrongFieldLength)],
    )?;
    says(&rt, &[9, 0, 1, 0], &[refused(0, Refusal::WrongFieldLength)])
}

#[test]
fn an_unknown_tag(rt: HostRuntime) -> Result<(), Fail> {
    for tag in [0, 10, 127, 255] {
        says(
            &rt,
            &[tag, 0, 4, 0, 0, 0, 1],
            &[refused(0, Refusal::UnknownTag)],
        )?;
    }
    Ok(())
}

#[test]
fn reads_on_behind_a_fault(rt: HostRuntime) -> Result<(), Fail> {
    let tape = [10, 0, 1, 0, 1, 0, 0, 9, 0, 0, 9, 0, 1];
    let tally = made(7, Call::Tally);
    says(
        &rt,
        &tape,
        &[
            refused(0, Refusal::UnknownTag),
            refused(4, Refusal::WrongFieldLength),
            tally,
            refused(10, Refusal::FieldCutShort),
        ],
    )
}

#[test]
fn a_field_cut_at_each_byte(rt: HostRuntime) -> Result<(), Fail> {
    let tape = [9, 0, 0, 77, 0, 4, 0, 0, 0, 1];
    for end in 4..10 {
        says(
            &rt,
            &tape[..end],
            &[made(0, Call::Tally), refused(3, Refusal::FieldCutShort)],
        )?;
    }
    says(
        &rt,
        &tape,
        &[made(0, Call::Tally), refused(3, Refusal::UnknownTag)],
    )
}

#[test]
fn the_longest_tape(rt: HostRuntime) -> Result<(), Fail> {
    let mut tape = vec![in rt.alloc(); 0u8; 65_535]?;
    check_eq(most_readings(&tape), 21_845)?;
    let mut all = Vec::new(rt.alloc());
    readings(&tape, &mut all)?;
    check_eq(all.len(), 21_845)?;
    check_eq(
        all.last().copied(),
        Some(refused(65_532, Refusal::UnknownTag)),
    )?;
    tape.push(0)?;
    check_eq(most_readings(&tape), 1)?;
    says(&rt, tape.as_slice(), &[refused(0, Refusal::TapeTooLong)])
}

#[test]
fn the_most_readings() -> Result<(), Fail> {
    check_eq(most_readings(&[]), 0)?;
    check_eq(most_readings(&[9]), 1)?;
    check_eq(most_readings(&[9, 0, 0]), 1)?;
    check_eq(most_readings(&[9, 0, 0, 9]), 2)
}

// A vector with just enough room takes the readings behind what it holds, and does not grow.
#[test]
fn readings_in_room_that_is_lent(rt: HostRuntime) -> Result<(), Fail> {
    let tape = [9, 0, 0, 32, 0, 0, 9];
    let first = made(7, Call::Tally);
    let mut all = Vec::with_capacity(rt.alloc(), 4)?;
    all.push(first)?;
    readings(&tape, &mut all)?;
    check_eq(
        all.as_slice(),
        &[
            first,
            made(0, Call::Tally),
            refused(3, Refusal::UnknownTag),
            refused(6, Refusal::FieldCutShort),
        ],
    )?;
    check_eq(all.capacity(), 4)
}

#[test]
fn a_field_lends_its_contents() -> Result<(), Fail> {
    let tape = [8, 0, 2, 5, 6, 9];
    let mut reader = Reader::new(&tape)?;
    let field = reader.next_field().ok_or("no field")??;
    check_eq(field.tag, 8)?;
    check_eq(field.contents, &tape[3..5])?;
    check_eq(reader.next_call(), Some(refused(5, Refusal::FieldCutShort)))?;
    check(reader.next_field().is_none())
}

#[test]
fn a_reader_gives_each_reading() -> Result<(), Fail> {
    let tape = [9, 0, 0, 32, 0, 0, 9];
    let reader = Reader::new(&tape)?;
    let mut faults = reader.filter(|reading| reading.outcome.is_err());
    check_eq(faults.next(), Some(refused(3, Refusal::UnknownTag)))?;
    check_eq(faults.next(), Some(refused(6, Refusal::FieldCutShort)))?;
    check_eq(faults.next(), None)
}

#[test]
fn a_fault_in_words(rt: HostRuntime) -> Result<(), Fail> {
    let fault = Fault {
        place: 24,
        refusal: Refusal::UnknownTag,
    };
    check_eq(fault.number(), 14)?;
    check_eq(fault.layer().number(), 2)?;
    let text = format!(in rt.alloc(); "{fault}")?;
    check_eq(
        text.as_str(),
        "place 24: layer 2, fault 14: no call has the tag",
    )
}

#[test]
fn a_refusal_in_words(rt: HostRuntime) -> Result<(), Fail> {
    let unknown = Refusal::UnknownTag;
    let text = format!(in rt.alloc(); "{unknown}")?;
    check_eq(text.as_str(), "refusal 14: the tag is unknown")?;
    let short = Refusal::AreaTooShort;
    let text = format!(in rt.alloc(); "{short}")?;
    check_eq(text.as_str(), "refusal 17: the output area is too short")
}
