// Vectors read from a text, a line for each: two decimal numbers with a blank between them.
ghost use Rattle.std.specs.Prelude.{◌≡◌, ℕ, MatchResult, Some};
ghost use Rattle.std.specs.Str.{IsUtf8};
ghost use Rattle.vectors.specs.Reading.{ReadsVectors, Says, SaysNothing, Writes, error_text};
ghost use Rattle.utf8.specs.Lines.{line_of_fault};
ghost use Rattle.vectors.specs.declared.reading.ReadError.TheVariants.{OutOfMemory};

use crate::agreement::Vector;
use std::alloc::{AllocFailed, Global};
use std::error::Error;
use std::fmt;
use std::fmt::{Display, Formatter};
use std::str::FromStr;

// The line is not two decimal numbers below 2^64 with a blank between them.
#[derive(Clone, Copy, PartialEq, Eq, Debug)]
pub struct NoVector;

impl FromStr for Vector {
    type Err = NoVector;

    ghost from_str_gives = { λ line r. MatchResult r (Says line) (λ _. SaysNothing line) };

    fn from_str(line: &str) -> Result<Vector, NoVector> {
        let (input, output) = line.split_once(' ').ok_or(NoVector)?;
        Ok(Vector {
            input: number_of(input)?,
            output: number_of(output)?,
        })
    }
}

// Without a sign: std's own reading of a number lets a plus sign lead it.
fn number_of(digits: &str) -> Result<u64, NoVector>
    ensures { MatchResult result (Writes digits.now) (λ _. (n : ℕ) → ¬ Writes digits.now n) }
{
    if digits.starts_with('+') {
        return Err(NoVector);
    }
    digits.parse().map_err(|_| NoVector)
}

// Why there are no vectors to compare.
#[derive(Clone, Copy, PartialEq, Eq, Debug)]
pub enum ReadError {
    NoText { line: usize },
    NoVector { line: usize },
    NoLines,
    OutOfMemory,
}

impl Display for ReadError {
    ghost output = { λ e. Some (error_text e) };

    fn fmt<W: fmt::Write>(&self, f: &mut Formatter<W>) -> fmt::Result {
        match self {
            ReadError::NoText { line } => write!(f, "line {line}: the bytes are not text in UTF-8"),
            ReadError::NoVector { line } => write!(
                f,
                "line {line}: two decimal numbers below 2^64, with a blank between them, were expected"
            ),
            ReadError::NoLines => write!(f, "there are no lines, so nothing was compared"),
            ReadError::OutOfMemory => write!(f, "out of memory"),
        }
    }
}

impl Error for ReadError {}

impl<T: Drop> From<AllocFailed<T>> for ReadError {
    ghost from_gives = { λ _ e. e ≡ OutOfMemory };

    fn from(_failed: AllocFailed<T>) -> ReadError {
        ReadError::OutOfMemory
    }
}

// The bytes as text, or the line on which they stop being text.
pub fn text_in(bytes: &[u8]) -> Result<&str, ReadError>
    ensures { MatchResult result (λ text. (text.now ≡ bytes.now) × IsUtf8 bytes.now)
        (λ e. ¬ IsUtf8 bytes.now × (e ≡ ReadError.NoText (line_of_fault bytes.now))) }
{
    utf8::text_in(bytes).map_err(|line| ReadError::NoText { line })
}

// Stops at the first line that says no vector. Each line before it gave one, so their number tells its own.
pub fn vectors_of(text: &str, heap: Global) -> Result<Vec<Vector>, ReadError>
    ensures { ReadsVectors text.now result }
{
    let mut vectors = Vec::new(heap);
    for line in text.lines() {
        match line.parse() {
            Ok(vector) => vectors.push(vector)?,
            Err(NoVector) => {
                return Err(ReadError::NoVector {
                    line: vectors.len() + 1,
                });
            }
        }
    }
    if vectors.is_empty() {
        return Err(ReadError::NoLines);
    }
    Ok(vectors)
}
