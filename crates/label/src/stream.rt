// Stream labels: a port, a channel of it and a session of that, as one number of 32 bits.
ghost use Rattle.std.specs.Prelude.{◌+◌, ◌*◌, ◌/◌, ◌%◌, ◌^◌, ◌≡◌};
ghost use Rattle.label.specs.Digests.{stream_number, mixed};

use crate::digest::mix;
use crate::{Label, Numbered};

#[derive(Clone, Copy, PartialEq, Eq, Debug)]
pub struct StreamLabel {
    pub port: u8,
    pub channel: u16,
    pub session: u8,
}

// The three parts side by side, so that the number gives each of them back.
fn packed(port: u8, channel: u16, session: u8) -> u32
    ensures number { result ≡ port * 2 ^ 24 + channel * 2 ^ 8 + session }
    ensures parts { (result / 2 ^ 24 ≡ port) × (result / 2 ^ 8 % 2 ^ 16 ≡ channel) × (result % 2 ^ 8 ≡ session) }
{
    port as u32 * 16777216 + channel as u32 * 256 + session as u32
}

impl StreamLabel {
    pub fn number(self) -> u32
        ensures number { result ≡ stream_number self.port self.channel self.session }
        ensures parts { (result / 2 ^ 24 ≡ self.port) × (result / 2 ^ 8 % 2 ^ 16 ≡ self.channel) × (result % 2 ^ 8 ≡ self.session) }
    {
        packed(self.port, self.channel, self.session)
    }
}

impl Label for StreamLabel {
    ghost number = { λ l. stream_number l.port l.channel l.session };

    ghost spread = { mixed };

    fn same(self, other: StreamLabel) -> bool {
        self.number() == other.number()
    }

    fn digest(self) -> u64 {
        mix(self.number() as u64)
    }
}

impl Numbered for StreamLabel {
    fn number(self) -> u32 {
        StreamLabel::number(self)
    }
}
