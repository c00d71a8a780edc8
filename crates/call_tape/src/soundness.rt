// Whether a tape is sound, or all its faults.
ghost use Rattle.std.specs.Prelude.{◌+◌, ◌≤◌, IfOk, IsOk, OnErr, vec_len, vec_capacity};
ghost use Rattle.std.specs.Vec.{VecUnchanged};
ghost use Rattle.call_tape.specs.Fields.{most_readings};
ghost use Rattle.call_tape.specs.Laws.{TapeLaws};
ghost use Rattle.call_tape.specs.Soundness.{FaultsAdded};

use crate::faults::Fault;
use crate::fields::Reader;
use crate::whole::most_readings;
use std::alloc::AllocError;

/// Adds every fault of the tape behind those that `faults` holds, in order, and answers whether the
/// tape is sound, that is, has none. With room for `most_readings` it never fails; without that room
/// and without memory, `faults` stays as it is.
pub fn faults_of(tape: &[u8], faults: &mut Vec<Fault>) -> Result<bool, AllocError>
    ensures judged { IfOk result (FaultsAdded tape.now faults.old.items faults.new.items) }
    ensures err { OnErr result (VecUnchanged faults.old faults.new) }
    ensures room { vec_len faults.old + most_readings tape.now ≤ vec_capacity faults.old → IsOk result }
    ensures capacity { vec_capacity faults.old ≤ vec_capacity faults.new }
    ensures laws { TapeLaws }
{
    let before = faults.len();
    faults.reserve(most_readings(tape))?;
    match Reader::new(tape) {
        Ok(reader) => {
            for reading in reader {
                if let Err(refusal) = reading.outcome {
                    let place = reading.place;
                    faults.push(Fault { place, refusal }).unwrap();
                }
            }
        }
        Err(fault) => faults.push(fault).unwrap(),
    }
    Ok(faults.len() == before)
}
