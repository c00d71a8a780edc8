// Vectors that agree with our mixing step, and vectors that do not.
use checks::{check, check_eq};
use std::test::*;
use vectors::{Difference, Score, Vector, differences};

// The first number of SplitMix64 from the seed 0.
const FIRST: Vector = Vector {
    input: 0x9e3779b97f4a7c15,
    output: 0xe220a8397b1dcdaf,
};

const WRONG: Vector = Vector {
    input: 0,
    output: 1,
};

#[test]
fn the_least_and_the_greatest_input() -> Result<(), Fail> {
    let least = Vector {
        input: 0,
        output: 0,
    };
    let greatest = Vector {
        input: u64::MAX,
        output: 13029008266876403067,
    };
    check(FIRST.agrees() && least.agrees() && greatest.agrees())?;
    check(!WRONG.agrees())
}

#[test]
fn what_is_told_of_a_difference(rt: HostRuntime) -> Result<(), Fail> {
    let found = differences(&[FIRST, WRONG, FIRST], rt.alloc())?;
    let expected = Difference {
        line: 2,
        vector: WRONG,
        found: 0,
    };
    check_eq(found.as_slice(), &[expected])?;
    let text = format!(in rt.alloc(); "{expected}")?;
    check_eq(text.as_str(), "line 2: input 0, expected 1, found 0")
}

#[test]
fn scores(rt: HostRuntime) -> Result<(), Fail> {
    let score = Score::of(&[FIRST, WRONG, FIRST]);
    check(!score.is_full())?;
    let text = format!(in rt.alloc(); "{score}")?;
    check_eq(text.as_str(), "2 of 3 agree")?;
    check(Score::of(&[FIRST, FIRST]).is_full())?;
    check(differences(&[FIRST, FIRST], rt.alloc())?.is_empty())
}
