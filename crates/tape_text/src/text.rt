// The text of a tape, a line for each call.
ghost use Rattle.std.specs.Prelude.{◌≡◌, ◌+◌, ◌*◌, ◌≤◌, [], ◌∷◌, ◌++◌, length, string_bytes, string_len};
ghost use Rattle.std.specs.Prelude.{IfOk, IsOk, OnOk, OnErr, vec_len, vec_capacity};
ghost use Rattle.std.specs.String.{string_capacity, StringUnchanged};
ghost use Rattle.std.specs.Vec.{VecUnchanged};
ghost use Rattle.call_tape.specs.Fields.{most_readings};
ghost use Rattle.tape_text.specs.Calls.{spaced, label_values, call_text};
ghost use Rattle.tape_text.specs.Lines.{SayingLaws};
ghost use Rattle.tape_text.specs.Taken.{most_text, HasTextWithin, CallsSaid, Worded};

use call_tape::{Call, Fault, LIMIT, Opening, Reader, faults_of};
use itoa::Buffer;
use label::StreamLabel;
use std::alloc::AllocError;

// The most bytes of text for a byte of tape: an append's field has 7 bytes, and its line 21 at most.
const TEXT_OF_A_BYTE: usize = 3;

/// The most bytes of text that the tape can have, if it is sound; one above the limit never is.
pub fn most_text(tape: &[u8]) -> usize
    ensures count { result ≡ most_text tape.now }
    ensures bound { HasTextWithin tape.now result }
{
    if tape.len() > LIMIT {
        0
    } else {
        TEXT_OF_A_BYTE * tape.len()
    }
}

// Adds a line of this word and these numbers, for which the text has room.
fn add_words(text: &mut String, word: &str, numbers: &[u32])
    requires { string_len text.old + length (word.now ++ spaced numbers.now) + 1
        ≤ string_capacity text.old }
    ensures bytes { string_bytes text.new
        ≡ string_bytes text.old ++ ((word.now ++ spaced numbers.now) ++ 10 ∷ []) }
    ensures len { string_len text.new
        ≡ string_len text.old + length (word.now ++ spaced numbers.now) + 1 }
    ensures capacity { string_capacity text.old ≤ string_capacity text.new }
{
    let mut digits = Buffer::new();
    text.push_str(word).unwrap();
    for number in numbers {
        text.push(' ').unwrap();
        text.push_str(digits.format(*number)).unwrap();
    }
    text.push('\n').unwrap();
}

fn label_numbers(stream: StreamLabel) -> [u32; 3]
    ensures { result ≡ label_values stream }
{
    [
        stream.port.into(),
        stream.channel.into(),
        stream.session.into(),
    ]
}

// Adds the line of the call, for which the text has room.
fn add_call(text: &mut String, call: Call)
    requires { string_len text.old + length (call_text call) + 1 ≤ string_capacity text.old }
    ensures bytes { string_bytes text.new ≡ string_bytes text.old ++ (call_text call ++ 10 ∷ []) }
    ensures len { string_len text.new ≡ string_len text.old + length (call_text call) + 1 }
    ensures capacity { string_capacity text.old ≤ string_capacity text.new }
{
    match call {
        Call::Write(n) => add_words(text, "write", &[n]),
        Call::Drop(n) => add_words(text, "drop", &[n]),
        Call::Spoil(n) => add_words(text, "spoil", &[n]),
        Call::Read(n) => add_words(text, "read", &[n]),
        Call::Trim(n) => add_words(text, "trim", &[n]),
        Call::Open(
            Opening {
                stream,
                first,
                length,
            },
        ) => {
            let [port, channel, session] = label_numbers(stream);
            add_words(text, "open", &[port, channel, session, first, length]);
        }
        Call::Append(stream) => add_words(text, "append", &label_numbers(stream)),
        Call::Close(stream) => add_words(text, "close", &label_numbers(stream)),
        Call::Tally => add_words(text, "tally", &[]),
    }
}

// Adds the text of the tape's calls, or nothing of a tape that is too long.
fn add_calls(tape: &[u8], text: &mut String) -> Result<(), AllocError>
    ensures said { OnOk result (CallsSaid tape.now (string_bytes text.old) (string_bytes text.new)) }
    ensures err { OnErr result (StringUnchanged text.old text.new) }
    ensures room { string_len text.old + most_text tape.now ≤ string_capacity text.old → IsOk result }
{
    let Ok(reader) = Reader::new(tape) else {
        return Ok(());
    };
    text.reserve(most_text(tape))?;
    for reading in reader {
        if let Ok(call) = reading.outcome {
            add_call(text, call);
        }
    }
    Ok(())
}

/// Adds the text of a sound tape to `text`, or every fault of another to `faults`, and answers
/// whether the tape is sound. With room for `most_text` and `most_readings` it never fails; without
/// that room and without memory, `text` and `faults` stay as they are.
pub fn text_of_tape(
    tape: &[u8],
    text: &mut String,
    faults: &mut Vec<Fault>,
) -> Result<bool, AllocError>
    ensures worded { IfOk result (Worded tape.now (string_bytes text.old) faults.old.items
        (string_bytes text.new) faults.new.items) }
    ensures err { OnErr result (StringUnchanged text.old text.new × VecUnchanged faults.old faults.new) }
    ensures room { string_len text.old + most_text tape.now ≤ string_capacity text.old
        → vec_len faults.old + most_readings tape.now ≤ vec_capacity faults.old
        → IsOk result }
    ensures laws { SayingLaws }
{
    let sound = faults_of(tape, faults)?;
    if sound {
        add_calls(tape, text)?;
    }
    Ok(sound)
}
