// Whether our mixing step gives what another SplitMix64 gave.
ghost use Rattle.std.specs.Prelude.{◌≡◌, ◌<◌, ◌↔◌, IfOk, IsTrue, Some, length};
ghost use Rattle.std.specs.List.{count_by};
ghost use Rattle.vectors.specs.Agreement.{agrees, difference, differences, difference_text, score_text};

use label::mix;
use std::alloc::{AllocError, Global};
use std::fmt;
use std::fmt::{Display, Formatter};

// An input of the mixing step, and the output that the other one gave.
#[derive(Clone, Copy, PartialEq, Eq, Debug)]
pub struct Vector {
    pub input: u64,
    pub output: u64,
}

impl Vector {
    pub fn agrees(self) -> bool
        ensures { result ≡ agrees self }
    {
        mix(self.input) == self.output
    }

    // The vector stands at this index, so its line has the next number.
    fn difference(self, index: usize) -> Option<Difference>
        requires { index < usize.MAX }
        ensures { result ≡ difference (index, self) }
    {
        if self.agrees() {
            return None;
        }
        Some(Difference {
            line: index + 1,
            vector: self,
            found: mix(self.input),
        })
    }
}

// A vector that does not agree: its line, counted from 1, and what our step gives.
#[derive(Clone, Copy, PartialEq, Eq, Debug)]
pub struct Difference {
    pub line: usize,
    pub vector: Vector,
    pub found: u64,
}

impl Display for Difference {
    ghost output = { λ d. Some (difference_text d) };

    fn fmt<W: fmt::Write>(&self, f: &mut Formatter<W>) -> fmt::Result {
        let Vector { input, output } = self.vector;
        write!(
            f,
            "line {}: input {input}, expected {output}, found {}",
            self.line, self.found
        )
    }
}

// In the order of the vectors, of which the first is from line 1.
pub fn differences(vectors: &[Vector], heap: Global) -> Result<Vec<Difference>, AllocError>
    ensures { IfOk result (λ found. found.items ≡ differences vectors.now) }
{
    vectors
        .iter()
        .enumerate()
        .filter_map(|(index, vector)| vector.difference(index))
        .collect(heap)
}

// How many vectors agree, of those compared.
#[derive(Clone, Copy, PartialEq, Eq, Debug)]
pub struct Score {
    pub agreeing: usize,
    pub compared: usize,
}

impl Score {
    pub fn of(vectors: &[Vector]) -> Score
        ensures agreeing { result.agreeing ≡ count_by agrees vectors.now }
        ensures compared { result.compared ≡ length vectors.now }
    {
        Score {
            agreeing: vectors.iter().filter(|vector| vector.agrees()).count(),
            compared: vectors.len(),
        }
    }

    pub fn is_full(self) -> bool
        ensures { IsTrue result ↔ (self.agreeing ≡ self.compared) }
    {
        self.agreeing == self.compared
    }
}

impl Display for Score {
    ghost output = { λ s. Some (score_text s) };

    fn fmt<W: fmt::Write>(&self, f: &mut Formatter<W>) -> fmt::Result {
        write!(f, "{} of {} agree", self.agreeing, self.compared)
    }
}
