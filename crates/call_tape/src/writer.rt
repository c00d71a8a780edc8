// A writer that adds calls to a tape in the caller's area, one field behind the other.
ghost use Rattle.std.specs.Prelude.{◌≡◌, ℕ, ◌≤◌, List, [], ◌∷◌, take};
ghost use Rattle.call_tape.specs.Calls.{bytes_of, label_bytes};
ghost use Rattle.call_tape.specs.Written.{encoded, written, placed};
ghost use Rattle.call_tape.specs.Tapes.{Tape};
ghost use Rattle.call_tape.specs.Writing.{room, Added, Holds, with_added};
ghost use Rattle.call_tape.specs.declared.calls.Call.{Call as CallValue};
ghost use Rattle.call_tape.specs.declared.calls.Call.TheVariants.{Open as OpenCall};

use crate::calls::{Call, Opening};
use crate::fields::LIMIT;
use label::StreamLabel;
use refusal::Refusal;

// The area, and how many of its first bytes are the tape so far.
#[derive(Drop)]
pub struct Writer<'a> {
    area: &'a mut [u8],
    used: usize,
    ghost fits: { used ≤ room area.now },
}

// The field of a call with a number.
fn numbered(tag: u8, n: u32) -> [u8; 7]
    ensures { result ≡ tag ∷ 0 ∷ 4 ∷ bytes_of n }
{
    let [a, b, c, d] = n.to_be_bytes();
    [tag, 0, 4, a, b, c, d]
}

// The field of a call with a stream's label.
fn labelled(tag: u8, stream: StreamLabel) -> [u8; 7]
    ensures { result ≡ tag ∷ 0 ∷ 4 ∷ label_bytes stream }
{
    let [high, low] = stream.channel.to_be_bytes();
    [tag, 0, 4, stream.port, high, low, stream.session]
}

// The field of an opening.
fn opened(opening: Opening) -> [u8; 15]
    ensures { result ≡ encoded (OpenCall opening) }
{
    let [_, _, _, port, high, low, session] = labelled(6, opening.stream);
    let [a, b, c, d] = opening.first.to_be_bytes();
    let [e, f, g, h] = opening.length.to_be_bytes();
    [6, 0, 12, port, high, low, session, a, b, c, d, e, f, g, h]
}

impl<'a> Writer<'a> {
    // A writer at the start of the area. What the area holds stays until it is written over.
    pub fn new(area: &'a mut [u8]) -> Writer<'a>
        ensures holds { Holds area.old result.area.now result.used [] }
        ensures lender { result.area.ghost_name ≡ area.entry.ghost_name }
    {
        Writer { area, used: 0 }
    }

    // Adds the bytes behind the tape so far.
    fn append(&mut self, field: &[u8]) -> Result<(), Refusal>
        ensures area { Added self.old.area.now self.old.used field.now result self.new.area.now self.new.used }
        ensures lender { self.new.area.ghost_name ≡ self.old.area.ghost_name }
    {
        let end = self.used + field.len();
        if end > self.area.len().min(LIMIT) {
            return Err(Refusal::AreaTooShort);
        }
        self.area[self.used..end].copy_from_slice(field);
        self.used = end;
        Ok(())
    }

    // Adds the field of the call.
    fn add_field(&mut self, call: Call) -> Result<(), Refusal>
        ensures area { Added self.old.area.now self.old.used (encoded call) result self.new.area.now self.new.used }
        ensures lender { self.new.area.ghost_name ≡ self.old.area.ghost_name }
    {
        match call {
            Call::Write(n) => self.append(&numbered(1, n)),
            Call::Drop(n) => self.append(&numbered(2, n)),
            Call::Spoil(n) => self.append(&numbered(3, n)),
            Call::Read(n) => self.append(&numbered(4, n)),
            Call::Trim(n) => self.append(&numbered(5, n)),
            Call::Open(opening) => self.append(&opened(opening)),
            Call::Append(stream) => self.append(&labelled(7, stream)),
            Call::Close(stream) => self.append(&labelled(8, stream)),
            Call::Tally => self.append(&[9, 0, 0]),
        }
    }

    // Adds the call to the tape. Where its field has no room, nothing changes.
    pub fn add(&mut self, call: Call) -> Result<(), Refusal>
        ensures area { Added self.old.area.now self.old.used (encoded call) result self.new.area.now self.new.used }
        ensures lender { self.new.area.ghost_name ≡ self.old.area.ghost_name }
        ensures holds { (area : List ℕ) (cs : List CallValue) → Holds area self.old.area.now self.old.used cs → Holds area self.new.area.now self.new.used (with_added cs call result) }
    {
        self.add_field(call)
    }

    // The tape so far.
    pub fn tape(&self) -> &[u8]
        ensures bytes { result.now ≡ take self.now.used self.now.area.now }
        ensures says { (area : List ℕ) (cs : List CallValue) → Holds area self.now.area.now self.now.used cs → (result.now ≡ written cs) × Tape result.now (placed 0 cs) }
    {
        &self.area[..self.used]
    }
}
