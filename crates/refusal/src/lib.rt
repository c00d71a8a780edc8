// Why a call is refused or a tape faulted: the closed set of reasons, each with its number and its layer.
#![tactic(auto)]

ghost use Rattle.std.specs.Prelude.{◌≡◌};
ghost use Rattle.refusal.specs.Numbers.{code, depth, layer_of};

use std::fmt;
use std::fmt::{Display, Formatter};

#[derive(Clone, Copy, PartialEq, Eq, Debug)]
pub enum Refusal {
    BadSize = 1,
    MapNotEmpty = 2,
    NumberTooLarge = 3,
    NumberBusy = 4,
    NoBlockWaiting = 5,
    BlockMapFull = 6,
    NoSuchGrant = 7,
    StreamAlreadyOpen = 8,
    StreamNotOpen = 9,
    StreamAtEnd = 10,
    BadLength = 11,
    StreamMapFull = 12,
    FieldCutShort = 13,
    UnknownTag = 14,
    WrongFieldLength = 15,
    TapeTooLong = 16,
    AreaTooShort = 17,
}

// The part of the card that a fault on a tape comes from.
#[derive(Clone, Copy, PartialEq, Eq, Debug)]
pub enum Layer {
    Field = 1,
    Call = 2,
    Service = 3,
    Map = 4,
}

impl Layer {
    pub fn number(self) -> u8
        ensures { result ≡ depth self }
    {
        self as u8
    }
}

impl Refusal {
    pub fn number(self) -> u8
        ensures { result ≡ code self }
    {
        self as u8
    }

    pub fn layer(self) -> Layer
        ensures { depth result ≡ layer_of (code self) }
    {
        match self {
            Refusal::FieldCutShort | Refusal::TapeTooLong => Layer::Field,
            Refusal::UnknownTag | Refusal::WrongFieldLength => Layer::Call,
            Refusal::BlockMapFull | Refusal::StreamMapFull => Layer::Map,
            _ => Layer::Service,
        }
    }

    fn text(self) -> &'static str {
        match self {
            Refusal::BadSize => "a size is not allowed",
            Refusal::MapNotEmpty => "the service was made over a map that holds pairs",
            Refusal::NumberTooLarge => "the block number is not below the card's bound",
            Refusal::NumberBusy => "the block number is busy: a grant for it is out",
            Refusal::NoBlockWaiting => "no blank block is waiting",
            Refusal::BlockMapFull =>
                "the block map is full: the number does not fit beside those held",
            Refusal::NoSuchGrant => "no such grant is out here",
            Refusal::StreamAlreadyOpen => "the stream is already open",
            Refusal::StreamNotOpen => "the stream is not open",
            Refusal::StreamAtEnd => "the stream has reached its end",
            Refusal::BadLength => "the length is 0 or passes the card's bound",
            Refusal::StreamMapFull =>
                "the stream map is full: the label does not fit beside those held",
            Refusal::FieldCutShort => "the tape ends inside this field",
            Refusal::UnknownTag => "the tag is unknown",
            Refusal::WrongFieldLength => "the field's length is wrong for its tag",
            Refusal::TapeTooLong => "the tape is above 65,535 bytes",
            Refusal::AreaTooShort => "the output area is too short",
        }
    }
}

impl Display for Refusal {
    fn fmt<W: fmt::Write>(&self, f: &mut Formatter<W>) -> fmt::Result {
        let number = self.number();
        let text = self.text();
        write!(f, "refusal {number}: {text}")
    }
}
