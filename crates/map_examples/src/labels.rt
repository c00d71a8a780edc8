// Digests with known values, and labels that are the same or not.
use checks::{check, check_eq};
use label::{Label, NewBlock, OldBlock, StreamLabel, mix};
use std::test::*;

const STREAM: StreamLabel = StreamLabel {
    port: 2,
    channel: 3,
    session: 4,
};

#[test]
fn digests_of_known_labels() -> Result<(), Fail> {
    check_eq(OldBlock(256).digest(), 4294967552)?;
    check_eq(OldBlock(1).digest(), 72057594037927937)?;
    check_eq(OldBlock(4294967295).digest(), 18446744073709551615)?;
    check_eq(NewBlock(0).digest(), 0)?;
    check_eq(NewBlock(1).digest(), mix(1))?;
    check_eq(STREAM.digest(), mix(33555204))
}

// The first number of SplitMix64 from the seed 0.
#[test]
fn mix_of_the_first_state() -> Result<(), Fail> {
    check_eq(mix(0x9e3779b97f4a7c15), 0xe220a8397b1dcdaf)
}

#[test]
fn labels_are_the_same_by_number() -> Result<(), Fail> {
    let old = OldBlock::from(7);
    let new = NewBlock::from(7);
    check(old.same(OldBlock(7)) && !old.same(OldBlock(8)))?;
    check(new.same(NewBlock(7)) && !new.same(NewBlock(6)))?;
    check_eq(STREAM.number(), 33555204)?;
    check(STREAM.same(StreamLabel {
        port: 2,
        channel: 3,
        session: 4,
    }))?;
    check(!STREAM.same(StreamLabel {
        port: 4,
        channel: 3,
        session: 2,
    }))
}
