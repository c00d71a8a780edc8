// All that a tape says, from its first byte to its last.
ghost use Rattle.std.specs.Prelude.{◌≡◌, ◌+◌, ◌≤◌, IsOk, OnOk, OnErr, vec_len, vec_capacity};
ghost use Rattle.std.specs.Vec.{VecUnchanged};
ghost use Rattle.call_tape.specs.Fields.{most_readings};
ghost use Rattle.call_tape.specs.Laws.{TapeLaws};
ghost use Rattle.call_tape.specs.Tapes.{HasAtMost, ReadingsAdded};

use crate::fields::{LIMIT, Reader, Reading};
use std::alloc::AllocError;

/// The most readings that the tape can have: every field has three bytes or more, but for a last one
/// that is cut short, and a tape above the limit is one fault.
pub fn most_readings(tape: &[u8]) -> usize
    ensures count { result ≡ most_readings tape.now }
    ensures bound { HasAtMost tape.now result }
{
    if tape.len() > LIMIT {
        1
    } else {
        (tape.len() + 2) / 3
    }
}

/// Adds the readings of the whole tape behind those that `all` holds, in order. With room for
/// `most_readings` it never fails; without that room and without memory, `all` stays as it is.
pub fn readings(tape: &[u8], all: &mut Vec<Reading>) -> Result<(), AllocError>
    ensures added { OnOk result (ReadingsAdded tape.now all.old.items all.new.items) }
    ensures err { OnErr result (VecUnchanged all.old all.new) }
    ensures room { vec_len all.old + most_readings tape.now ≤ vec_capacity all.old → IsOk result }
    ensures capacity { vec_capacity all.old ≤ vec_capacity all.new }
    ensures laws { TapeLaws }
{
    all.reserve(most_readings(tape))?;
    match Reader::new(tape) {
        Ok(reader) => {
            for reading in reader {
                all.push(reading).unwrap();
            }
        }
        Err(fault) => all.push(fault.into()).unwrap(),
    }
    Ok(())
}
