// The labels of two streams.
use label::StreamLabel;

pub const ONE: StreamLabel = StreamLabel {
    port: 1,
    channel: 2,
    session: 3,
};

pub const TWO: StreamLabel = StreamLabel {
    port: 1,
    channel: 2,
    session: 4,
};
