// The numbers behind the word of a call.
ghost use Rattle.tape_text.specs.Numbers.{Reads};

use crate::complaints::Complaint;

// Each of these three reads the word at this place of a line.
pub(crate) fn u8_in(place: usize, word: &str) -> Result<u8, Complaint>
    ensures { Reads place 255 word.now result }
{
    word.parse().map_err(|_| Complaint::BadNumber {
        word: place,
        largest: u8::MAX.into(),
    })
}

pub(crate) fn u16_in(place: usize, word: &str) -> Result<u16, Complaint>
    ensures { Reads place 65535 word.now result }
{
    word.parse().map_err(|_| Complaint::BadNumber {
        word: place,
        largest: u16::MAX.into(),
    })
}

pub(crate) fn u32_in(place: usize, word: &str) -> Result<u32, Complaint>
    ensures { Reads place 4294967295 word.now result }
{
    word.parse().map_err(|_| Complaint::BadNumber {
        word: place,
        largest: u32::MAX,
    })
}
