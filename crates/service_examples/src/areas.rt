// Blank rows, and the labels that the tests use.
use label::{OldBlock, StreamLabel};
use rules::{Entry, Position, Tally};
use straight::Row;

pub const BLANK: Row<OldBlock, Entry> = Row {
    used: false,
    label: OldBlock(0),
    payload: Entry::Settled(0),
};

pub const STREAM: StreamLabel = StreamLabel {
    port: 1,
    channel: 2,
    session: 3,
};

pub const QUIET: Row<StreamLabel, Position> = Row {
    used: false,
    label: STREAM,
    payload: Position { next: 0, end: 0 },
};

pub(crate) fn counts(waiting: usize, out: usize, settled: usize, condemned: usize) -> Tally {
    Tally {
        waiting,
        out,
        settled,
        condemned,
    }
}
