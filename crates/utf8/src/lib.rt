// Bytes as text, or the line on which they stop being text.
#![tactic(auto)]

ghost use Rattle.std.specs.Prelude.{◌≡◌, ◌==◌, MatchResult};
ghost use Rattle.std.specs.List.{count_by};
ghost use Rattle.std.specs.Str.{IsUtf8};
ghost use Rattle.utf8.specs.Lines.{line_of_fault};

use std::str::from_utf8;

fn newlines(bytes: &[u8]) -> usize
    ensures { result ≡ count_by (λ b. b == 10) bytes.now }
{
    bytes.iter().filter(|byte| **byte == b'\n').count()
}

// The bytes as text, or else the number of the line with the first byte that is none; lines are counted from 1.
pub fn text_in(bytes: &[u8]) -> Result<&str, usize>
    ensures { MatchResult result (λ text. (text.now ≡ bytes.now) × IsUtf8 bytes.now) (λ line. ¬ IsUtf8 bytes.now × (line ≡ line_of_fault bytes.now)) }
{
    from_utf8(bytes).map_err(|error| 1 + newlines(&bytes[..error.valid_up_to()]))
}
