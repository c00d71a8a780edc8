// The text form of a call tape: one call to a line, in words and decimal numbers.
#![tactic(auto)]

mod complaints;
mod lines;
mod numbers;
mod text;
mod whole;

pub use complaints::{Complaint, LineFault};
pub use lines::call_in;
pub use text::{most_text, text_of_tape};
pub use whole::tape_of;
