// A reader that goes over a tape field by field.
ghost use Rattle.std.specs.Prelude.{◌≡◌, ◌-◌, length, Err};
ghost use Rattle.std.specs.Iterator.{at_most};
ghost use Rattle.call_tape.specs.Fields.{Opened, First, Taken, Next, Further, Gives};

use crate::calls::{Call, decode};
use crate::faults::Fault;
use refusal::Refusal;

// The most bytes of a tape. A longer one is refused whole, so that every place fits two bytes.
pub const LIMIT: usize = 65_535;

// A whole field; its contents are a part of the tape.
#[derive(Clone, Copy, PartialEq, Eq, Debug)]
pub struct Field<'a> {
    pub place: usize,
    pub tag: u8,
    pub contents: &'a [u8],
}

// What one field says: the call, or why it makes none.
#[derive(Clone, Copy, PartialEq, Eq, Debug)]
pub struct Reading {
    pub place: usize,
    pub outcome: Result<Call, Refusal>,
}

// A tape, and the place of the field that is read next.
#[derive(Drop)]
pub struct Reader<'a> {
    tape: &'a [u8],
    place: usize,
}

impl From<Fault> for Reading {
    ghost from_gives = { λ f r. r ≡ record { place = f.place; outcome = Err f.refusal } };

    fn from(fault: Fault) -> Reading {
        Reading {
            place: fault.place,
            outcome: Err(fault.refusal),
        }
    }
}

// The field at the start of these bytes, or `None` where they end inside it.
fn first_field(place: usize, left: &[u8]) -> Option<Field>
    ensures { First left.now place result }
{
    let [tag, high, low, others @ ..] = left else {
        return None;
    };
    let size = u16::from_be_bytes([*high, *low]);
    Some(Field {
        place,
        tag: *tag,
        contents: others.get(..usize::from(size))?,
    })
}

impl<'a> Reader<'a> {
    // A reader at the start of the tape; a tape above the limit is not read at all.
    pub fn new(tape: &'a [u8]) -> Result<Reader<'a>, Fault>
        ensures { Opened tape.now result }
    {
        if tape.len() > LIMIT {
            return Err(Fault {
                place: 0,
                refusal: Refusal::TapeTooLong,
            });
        }
        Ok(Reader { tape, place: 0 })
    }

    // The next field, or `None` behind the last. A field that the tape's end cuts short is the last.
    pub fn next_field(&mut self) -> Option<Result<Field<'a>, Fault>>
        ensures tape { self.new.tape.now ≡ self.old.tape.now }
        ensures step { Taken self.old.tape.now self.old.place result self.new.place }
    {
        let place = self.place;
        let left = self.tape.get(place..)?;
        if left.is_empty() {
            return None;
        }
        let Some(field) = first_field(place, left) else {
            self.place = self.tape.len();
            return Some(Err(Fault {
                place,
                refusal: Refusal::FieldCutShort,
            }));
        };
        self.place += 3 + field.contents.len();
        Some(Ok(field))
    }

    // The call or the fault of the next field, or `None` behind the last.
    pub fn next_call(&mut self) -> Option<Reading>
        ensures tape { self.new.tape.now ≡ self.old.tape.now }
        ensures step { Next self.old.tape.now self.old.place result self.new.place }
        ensures further { Further self.old.tape.now self.old.place result self.new.place }
    {
        Some(match self.next_field()? {
            Ok(field) => Reading {
                place: field.place,
                outcome: decode(field.tag, field.contents),
            },
            Err(fault) => fault.into(),
        })
    }
}

impl<'a> Iterator for Reader<'a> {
    type Item = Reading;

    ghost next_gives = { Gives };

    ghost remaining = { λ s. at_most (length s.tape.now - s.place) };

    fn next(&mut self) -> Option<Reading> {
        self.next_call()
    }
}
