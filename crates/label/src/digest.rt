// The digests that labels are spread by.
ghost use Rattle.std.specs.Prelude.{◌*◌, ◌%◌, ◌^◌, ◌≡◌};
ghost use Rattle.std.specs.Int.Bits.{bit_xor};
ghost use Rattle.label.specs.Digests.{old_digest, mixed};

// SplitMix64's mixing step, so that numbers in a row have digests far apart.
pub fn mix(z: u64) -> u64
    ensures { result ≡ mixed z }
{
    let a = stir(z, z >> 30, 0xbf58476d1ce4e5b9);
    let b = stir(a, a >> 27, 0x94d049bb133111eb);
    b ^ (b >> 31)
}

// One round: the high bits folded onto the low ones, and a multiplication.
fn stir(z: u64, fold: u64, m: u64) -> u64
    ensures { result ≡ bit_xor z fold * m % 2 ^ 64 }
{
    (z ^ fold).wrapping_mul(m)
}

// The number in the low half, and the same number turned by a byte in the high half.
pub fn old_digest(n: u32) -> u64
    ensures { result ≡ old_digest n }
{
    n as u64 + ((n.rotate_right(8) as u64) << 32)
}
