// What is wrong with a tape, and where.
ghost use Rattle.std.specs.Prelude.{◌≡◌, Some};
ghost use Rattle.refusal.specs.Numbers.{code, depth, layer_of};
ghost use Rattle.call_tape.specs.Faults.{fault_words, fault_text};

use refusal::{Layer, Refusal};
use std::fmt;
use std::fmt::{Display, Formatter};

// A fault, with the place of the field that has it: the number of bytes before that field.
#[derive(Clone, Copy, PartialEq, Eq, Debug)]
pub struct Fault {
    pub place: usize,
    pub refusal: Refusal,
}

impl Fault {
    pub fn number(self) -> u8
        ensures { result ≡ code self.refusal }
    {
        self.refusal.number()
    }

    pub fn layer(self) -> Layer
        ensures { depth result ≡ layer_of (code self.refusal) }
    {
        self.refusal.layer()
    }
}

// What is wrong, in words.
fn fault_words(refusal: Refusal) -> &'static str
    ensures { result.now ≡ fault_words refusal }
{
    match refusal {
        Refusal::FieldCutShort => "the tape ends inside the field",
        Refusal::UnknownTag => "no call has the tag",
        Refusal::WrongFieldLength => "the length is wrong for the tag",
        Refusal::TapeTooLong => "the tape is above 65,535 bytes",
        _ => "no fault of a tape",
    }
}

impl Display for Fault {
    ghost output = { λ f. Some (fault_text f) };

    fn fmt<W: fmt::Write>(&self, f: &mut Formatter<W>) -> fmt::Result {
        let words = fault_words(self.refusal);
        write!(
            f,
            "place {}: layer {}, fault {}: {words}",
            self.place,
            self.layer().number(),
            self.number()
        )
    }
}
