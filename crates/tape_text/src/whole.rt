// A whole text: the calls of its lines as a tape.
ghost use Rattle.std.specs.Prelude.{◌≡◌, ℕ, List, MatchResult};
ghost use Rattle.std.specs.Str.{IsUtf8};
ghost use Rattle.call_tape.specs.Writing.{Holds};
ghost use Rattle.call_tape.specs.declared.calls.Call.{Call as CallValue};
ghost use Rattle.tape_text.specs.Taken.{NoText, LineAdded, Taped, OneTaping, GivesBack};

use crate::complaints::{Complaint, LineFault};
use crate::lines::call_in;
use call_tape::Writer;

fn text_in(bytes: &[u8]) -> Result<&str, LineFault>
    ensures { MatchResult result (λ text. (text.now ≡ bytes.now) × IsUtf8 bytes.now) (NoText bytes.now) }
{
    utf8::text_in(bytes).map_err(|line| LineFault {
        line,
        complaint: Complaint::NotText,
    })
}

// Adds the call of a line, if it says one.
fn add_line(writer: &mut Writer, number: usize, line: &str) -> Result<(), LineFault>
    ensures lender { writer.new.area.ghost_name ≡ writer.old.area.ghost_name }
    ensures added { (area : List ℕ) (cs : List CallValue) → Holds area writer.old.area.now writer.old.used cs → LineAdded line.now number area cs result writer.new.area.now writer.new.used }
{
    match call_in(line) {
        Ok(None) => Ok(()),
        Ok(Some(call)) => match writer.add(call) {
            Ok(()) => Ok(()),
            Err(_) => Err(LineFault {
                line: number,
                complaint: Complaint::NoRoom,
            }),
        },
        Err(complaint) => Err(LineFault {
            line: number,
            complaint,
        }),
    }
}

// Puts the tape of the calls that the lines of a text say, in order, at the start of the area, and answers its length.
// Where a line is refused, the calls of the lines before it stand there; a text that is not UTF-8 is refused for that alone, and the area stays as it is.
pub fn tape_of(bytes: &[u8], area: &mut [u8]) -> Result<usize, LineFault>
    ensures taped { Taped bytes.now area.old result area.new }
    ensures once { OneTaping }
    ensures back { GivesBack }
{
    let text = text_in(bytes)?;
    let mut writer = Writer::new(area);
    for (above, line) in text.lines().enumerate() {
        add_line(&mut writer, above + 1, line)?;
    }
    Ok(writer.tape().len())
}
