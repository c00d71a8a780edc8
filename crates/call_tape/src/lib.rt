// Call tapes: the fields of a byte string, the call or the fault of each, and calls written as such a string.
#![tactic(auto)]

mod calls;
mod faults;
mod fields;
mod soundness;
mod whole;
mod writer;

pub use calls::{Call, Opening, decode};
pub use faults::Fault;
pub use fields::{Field, LIMIT, Reader, Reading};
pub use soundness::faults_of;
pub use whole::{most_readings, readings};
pub use writer::Writer;
