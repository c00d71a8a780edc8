// What a call is, and how a field's tag and contents say it.
ghost use Rattle.std.specs.Prelude.{◌≡◌, [], ◌∷◌};
ghost use Rattle.call_tape.specs.Calls.{decoded, number_at, stream_at, opening_of, sized, Decodes, OwnField};

use label::StreamLabel;
use refusal::Refusal;

// A stream that is to be opened, its first number, and how many numbers it has.
#[derive(Clone, Copy, PartialEq, Eq, Debug)]
pub struct Opening {
    pub stream: StreamLabel,
    pub first: u32,
    pub length: u32,
}

#[derive(Clone, Copy, PartialEq, Eq, Debug)]
pub enum Call {
    Write(u32),
    Drop(u32),
    Spoil(u32),
    Read(u32),
    Trim(u32),
    Open(Opening),
    Append(StreamLabel),
    Close(StreamLabel),
    Tally,
}

// The number in contents of four bytes.
fn number_in(contents: &[u8]) -> Result<u32, Refusal>
    ensures { result ≡ sized 4 contents.now (number_at contents.now 0) }
{
    match contents {
        [a, b, c, d] => Ok(u32::from_be_bytes([*a, *b, *c, *d])),
        _ => Err(Refusal::WrongFieldLength),
    }
}

// The channel's two bytes stand with the big end first.
fn label_of(port: u8, high: u8, low: u8, session: u8) -> StreamLabel
    ensures { result ≡ stream_at (port ∷ high ∷ low ∷ session ∷ []) 0 }
{
    StreamLabel {
        port,
        channel: u16::from_be_bytes([high, low]),
        session,
    }
}

// The label in contents of four bytes.
fn stream_in(contents: &[u8]) -> Result<StreamLabel, Refusal>
    ensures { result ≡ sized 4 contents.now (stream_at contents.now 0) }
{
    match contents {
        [port, high, low, session] => Ok(label_of(*port, *high, *low, *session)),
        _ => Err(Refusal::WrongFieldLength),
    }
}

// The opening in contents of twelve bytes.
fn opening_in(contents: &[u8]) -> Result<Opening, Refusal>
    ensures { result ≡ sized 12 contents.now (opening_of contents.now) }
{
    match contents {
        [port, high, low, session, a, b, c, d, e, f, g, h] => Ok(Opening {
            stream: label_of(*port, *high, *low, *session),
            first: u32::from_be_bytes([*a, *b, *c, *d]),
            length: u32::from_be_bytes([*e, *f, *g, *h]),
        }),
        _ => Err(Refusal::WrongFieldLength),
    }
}

// The call by its tag.
fn call_of(tag: u8, contents: &[u8]) -> Result<Call, Refusal>
    ensures { result ≡ decoded tag contents.now }
{
    match tag {
        1 => Ok(Call::Write(number_in(contents)?)),
        2 => Ok(Call::Drop(number_in(contents)?)),
        3 => Ok(Call::Spoil(number_in(contents)?)),
        4 => Ok(Call::Read(number_in(contents)?)),
        5 => Ok(Call::Trim(number_in(contents)?)),
        6 => Ok(Call::Open(opening_in(contents)?)),
        7 => Ok(Call::Append(stream_in(contents)?)),
        8 => Ok(Call::Close(stream_in(contents)?)),
        9 => match contents {
            [] => Ok(Call::Tally),
            _ => Err(Refusal::WrongFieldLength),
        },
        _ => Err(Refusal::UnknownTag),
    }
}

// The call that a field of this tag and these contents makes, or why it makes none.
pub fn decode(tag: u8, contents: &[u8]) -> Result<Call, Refusal>
    ensures answer { result ≡ decoded tag contents.now }
    ensures meaning { Decodes tag contents.now result }
    ensures own { OwnField }
{
    call_of(tag, contents)
}
