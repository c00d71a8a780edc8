// The block number of the new line of cards, spread by a mix of its bits.
ghost use Rattle.std.specs.Prelude.{◌≡◌};
ghost use Rattle.label.specs.Digests.{mixed};

use crate::digest::mix;
use crate::{BlockNumber, Label, Numbered};

#[derive(Clone, Copy, PartialEq, Eq, Debug)]
pub struct NewBlock(pub u32);

impl Label for NewBlock {
    ghost number = { λ l. l.0 };

    ghost spread = { mixed };

    fn same(self, other: NewBlock) -> bool {
        self.number() == other.number()
    }

    fn digest(self) -> u64 {
        mix(self.number() as u64)
    }
}

impl Numbered for NewBlock {
    fn number(self) -> u32 {
        self.0
    }
}

impl From<u32> for NewBlock {
    ghost from_gives = { λ n l. l.0 ≡ n };

    fn from(n: u32) -> NewBlock {
        NewBlock(n)
    }
}

impl BlockNumber for NewBlock {
    ghost made = { λ n l e. e };
}
