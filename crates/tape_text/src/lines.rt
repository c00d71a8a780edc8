// A line of the text, as the call that it says.
ghost use Rattle.std.specs.Prelude.{[], ◌∷◌, MatchResult, ◌≡◌, ◌≤◌, take};
ghost use Rattle.tape_text.specs.Numbers.{texts, ReadsAll};
ghost use Rattle.tape_text.specs.Calls.{number_limits, label_limits, opening_limits, label_values, opening_values, Says, Wrong, LineMeans, OneMeaning};
ghost use Rattle.tape_text.specs.Lines.{words};

use crate::complaints::Complaint;
use crate::numbers::{u8_in, u16_in, u32_in};
use call_tape::{Call, Opening};
use label::StreamLabel;

// No line needs more words to be judged than those of an opening, and one.
const MOST_WORDS: usize = 7;

// The number of a call that takes one.
#[tactic(auto, using(crate::proofs::Reading::miscounted))]
fn number_in(words: &[&str]) -> Result<u32, Complaint>
    ensures { ReadsAll number_limits (texts words.now) (λ n. n ∷ []) result }
{
    match *words {
        [number] => u32_in(2, number),
        _ => Err(Complaint::WrongCount(1)),
    }
}

// The label of a call that takes just that.
#[tactic(auto, using(crate::proofs::Reading::miscounted))]
fn stream_in(words: &[&str]) -> Result<StreamLabel, Complaint>
    ensures { ReadsAll label_limits (texts words.now) label_values result }
{
    match *words {
        [port, channel, session] => Ok(StreamLabel {
            port: u8_in(2, port)?,
            channel: u16_in(3, channel)?,
            session: u8_in(4, session)?,
        }),
        _ => Err(Complaint::WrongCount(3)),
    }
}

#[tactic(auto, using(crate::proofs::Reading::miscounted))]
fn opening_in(words: &[&str]) -> Result<Opening, Complaint>
    ensures { ReadsAll opening_limits (texts words.now) opening_values result }
{
    match *words {
        [port, channel, session, first, length] => Ok(Opening {
            stream: StreamLabel {
                port: u8_in(2, port)?,
                channel: u16_in(3, channel)?,
                session: u8_in(4, session)?,
            },
            first: u32_in(5, first)?,
            length: u32_in(6, length)?,
        }),
        _ => Err(Complaint::WrongCount(5)),
    }
}

// The call of this first word and these words behind it.
fn said_by(word: &str, words: &[&str]) -> Result<Call, Complaint>
    ensures { MatchResult result (Says (word.now ∷ texts words.now)) (Wrong (word.now ∷ texts words.now)) }
{
    match word {
        "write" => Ok(Call::Write(number_in(words)?)),
        "drop" => Ok(Call::Drop(number_in(words)?)),
        "spoil" => Ok(Call::Spoil(number_in(words)?)),
        "read" => Ok(Call::Read(number_in(words)?)),
        "trim" => Ok(Call::Trim(number_in(words)?)),
        "open" => Ok(Call::Open(opening_in(words)?)),
        "append" => Ok(Call::Append(stream_in(words)?)),
        "close" => Ok(Call::Close(stream_in(words)?)),
        "tally" => match words {
            [] => Ok(Call::Tally),
            _ => Err(Complaint::WrongCount(0)),
        },
        _ => Err(Complaint::UnknownWord),
    }
}

// The call that the words of a line say; a line without words says none.
fn call_of(words: &[&str]) -> Result<Option<Call>, Complaint>
    ensures { LineMeans (texts words.now) result }
{
    match words {
        [] => Ok(None),
        [word, numbers @ ..] => Ok(Some(said_by(word, numbers)?)),
    }
}

// The first words of a line, and how many they are.
fn first_words(line: &str) -> ([&str; MOST_WORDS], usize)
    ensures { (result.1 ≤ 7) × (texts (take result.1 result.0) ≡ take 7 (words line.now)) }
{
    let mut words = [""; MOST_WORDS];
    let mut count = 0;
    for word in line.split(' ') {
        if !word.is_empty() && count < MOST_WORDS {
            words[count] = word;
            count += 1;
        }
    }
    (words, count)
}

// The call that a line says; its words are what stands between blanks.
pub fn call_in(line: &str) -> Result<Option<Call>, Complaint>
    ensures means { LineMeans (words line.now) result }
    ensures once { OneMeaning }
{
    let (words, count) = first_words(line);
    call_of(&words[..count])
}
