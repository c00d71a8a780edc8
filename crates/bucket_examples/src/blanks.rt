// Buckets and rows to make an area of.
use bucket::{Bucket, Mark, Slot};
use straight::Row;

pub const NO_MARK: Mark = Mark {
    bucket: 0,
    parent: 0,
    slot: 0,
    joined: false,
};

// A bucket that holds nothing, with the label and the payload in its unused slots.
pub(crate) fn blank<L: Copy, V: Copy>(label: L, payload: V) -> Bucket<L, V> {
    let slot = Slot {
        used: false,
        tag: 0,
        label,
        payload,
    };
    Bucket {
        filter: 0,
        moved: 0,
        mark: NO_MARK,
        s0: slot,
        s1: slot,
        s2: slot,
        s3: slot,
    }
}

pub(crate) fn blank_row<L: Copy, V: Copy>(label: L, payload: V) -> Row<L, V> {
    Row {
        used: false,
        label,
        payload,
    }
}
