// Labels: what the pairs of a map go by. A label has a number, which says what it is, and a digest, which says where a hashed map looks for it.
#![tactic(auto)]

ghost use Rattle.std.specs.Prelude.{ℕ, ◌≡◌, eqb};

mod digest;
mod new_block;
mod old_block;
mod stream;

pub use digest::mix;
pub use new_block::NewBlock;
pub use old_block::OldBlock;
pub use stream::StreamLabel;

pub trait Label: Copy {
    // Two labels are the same where their numbers are.
    ghost number: { Self → ℕ };

    // The digest, by the number alone.
    ghost spread: { ℕ → ℕ };

    fn same(self, other: Self) -> bool
        ensures { result ≡ eqb (number self) (number other) };

    fn digest(self) -> u64
        ensures { result ≡ spread (number self) };
}

/// A label whose number fits 32 bits, and can be told.
pub trait Numbered: Label {
    fn number(self) -> u32
        ensures { result ≡ Self.Label.number self };
}

// A label that is a block number, and is made from one.
pub trait BlockNumber: Label + From<u32> {
    // The label made from a number has that number.
    ghost made: { (n : ℕ) (l : Self) → Self.From.from_gives n l → Self.Label.number l ≡ n };
}
