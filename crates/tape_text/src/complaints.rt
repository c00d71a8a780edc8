// What is wrong with a text from which no tape can be made, and on which line.
ghost use Rattle.std.specs.Prelude.{Some};
ghost use Rattle.tape_text.specs.Words.{complaint_text, line_fault_text};

use std::error::Error;
use std::fmt;
use std::fmt::{Display, Formatter};

// Why a line says no call, or its call cannot be added to the tape.
#[derive(Clone, Copy, PartialEq, Eq, Debug)]
pub enum Complaint {
    NotText,
    UnknownWord,
    // How many numbers the call of that word takes.
    WrongCount(usize),
    // The place of the word, counted from 1 with the word of the call, and the largest number that may stand there.
    BadNumber { word: usize, largest: u32 },
    NoRoom,
}

// The line that a text is refused for, counted from 1: the first that cannot be read, or, where the text is not UTF-8, the line with the first byte that is none.
#[derive(Clone, Copy, PartialEq, Eq, Debug)]
pub struct LineFault {
    pub line: usize,
    pub complaint: Complaint,
}

impl Display for Complaint {
    ghost output = { λ c. Some (complaint_text c) };

    fn fmt<W: fmt::Write>(&self, f: &mut Formatter<W>) -> fmt::Result {
        match self {
            Complaint::NotText => write!(f, "the line is not UTF-8"),
            Complaint::UnknownWord => write!(
                f,
                "the first word names no call (write, drop, spoil, read, trim, open, append, close, tally)"
            ),
            Complaint::WrongCount(count) => {
                let plural = if *count == 1 { "" } else { "s" };
                write!(f, "this call takes {count} number{plural}")
            }
            Complaint::BadNumber { word, largest } => {
                write!(f, "word {word} is not a decimal number from 0 to {largest}")
            }
            Complaint::NoRoom => write!(f, "the tape has no room for this call (refusal 17)"),
        }
    }
}

impl Display for LineFault {
    ghost output = { λ f. Some (line_fault_text f) };

    fn fmt<W: fmt::Write>(&self, f: &mut Formatter<W>) -> fmt::Result {
        write!(f, "line {}: {}", self.line, self.complaint)
    }
}

impl Error for LineFault {}
