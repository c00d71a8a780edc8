// What a player is asked.
use label::StreamLabel;

/// A call to make. An ending names the number that its grant was given for: at most one grant is out for a number.
/// A command that ends a grant asks for no call where no grant is out for its number.
#[derive(Clone, Copy, PartialEq, Eq, Debug)]
pub enum Command {
    Begin(u32),
    Append(StreamLabel),
    Commit(u32),
    Abandon(u32),
    Condemn(u32),
    Read(u32),
    Trim(u32),
    /// The label, the first number, and how many numbers.
    Open(StreamLabel, u32, u32),
    Close(StreamLabel),
    Position(StreamLabel),
    Tally,
}
