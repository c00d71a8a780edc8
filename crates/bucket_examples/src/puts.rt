// Puts that every example of a small table begins with.
use bucket_map::BucketMap;
use checks::check_eq;
use insertion::Stored;
use label::Label;
use std::fmt::Debug;
use std::test::*;

// Puts each pair, and sees that none needs a move.
pub(crate) fn adds<L: Label, V: Copy + PartialEq + Debug, const N: usize>(
    map: &mut BucketMap<L, V>,
    pairs: [(L, V); N],
) -> Result<(), Fail> {
    for (label, payload) in pairs {
        check_eq(map.put(label, payload), Ok(Stored::Added(0)))?;
    }
    Ok(())
}
