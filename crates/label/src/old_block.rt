// The block number of the old line of cards, spread by its own bits.
ghost use Rattle.std.specs.Prelude.{◌≡◌};
ghost use Rattle.label.specs.Digests.{old_digest};

use crate::digest::old_digest;
use crate::{BlockNumber, Label, Numbered};

// Beside `NewBlock` and not one generic type with it: that would need a marker type for each line, and `OldBlock(7)` could not be written.
#[derive(Clone, Copy, PartialEq, Eq, Debug)]
pub struct OldBlock(pub u32);

impl Label for OldBlock {
    ghost number = { λ l. l.0 };

    ghost spread = { old_digest };

    fn same(self, other: OldBlock) -> bool {
        self.number() == other.number()
    }

    fn digest(self) -> u64 {
        old_digest(self.number())
    }
}

impl Numbered for OldBlock {
    fn number(self) -> u32 {
        self.0
    }
}

impl From<u32> for OldBlock {
    ghost from_gives = { λ n l. l.0 ≡ n };

    fn from(n: u32) -> OldBlock {
        OldBlock(n)
    }
}

impl BlockNumber for OldBlock {
    ghost made = { λ n l e. e };
}
