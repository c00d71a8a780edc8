// What the examples say of a value: an answer that is not the one wanted fails its test, and names both.
#![tactic(auto)]

ghost use Rattle.std.specs.Prelude.{◌≡◌, true, false, MatchResult};

use std::fmt::{Debug, Display};
use std::test::Fail;

// Fails with the message where the condition does not hold.
fn holds_or<M: Display + Drop>(holds: bool, message: M) -> Result<(), Fail>
    ensures { MatchResult result (λ _. holds ≡ true) (λ _. holds ≡ false) }
{
    if holds {
        Ok(())
    } else {
        Err(Fail::new(message))
    }
}

pub fn check(holds: bool) -> Result<(), Fail>
    ensures { MatchResult result (λ _. holds ≡ true) (λ _. holds ≡ false) }
{
    holds_or(holds, format_args!("what was wanted does not hold"))
}

pub fn check_eq<T: PartialEq + Debug + Drop>(found: T, wanted: T) -> Result<(), Fail>
    ensures { MatchResult result (λ _. T.eq found wanted ≡ true) (λ _. T.eq found wanted ≡ false) }
{
    holds_or(
        found == wanted,
        format_args!("{found:?} in place of {wanted:?}"),
    )
}

pub fn check_ne<T: PartialEq + Debug + Drop>(found: T, unwanted: T) -> Result<(), Fail>
    ensures { MatchResult result (λ _. T.eq found unwanted ≡ false) (λ _. T.eq found unwanted ≡ true) }
{
    holds_or(found != unwanted, format_args!("{found:?} is not wanted"))
}

// The same as `check_eq`, of a row in a table of them.
pub fn check_row<T: PartialEq + Debug + Drop>(row: usize, answer: T, wanted: T) -> Result<(), Fail>
    ensures { MatchResult result (λ _. T.eq answer wanted ≡ true) (λ _. T.eq answer wanted ≡ false) }
{
    holds_or(
        answer == wanted,
        format_args!("row {row}: {answer:?} in place of {wanted:?}"),
    )
}
