// The table: buckets in a lent slice. A label lies in one of its two buckets; here it is found, taken out, and moved from one to the other.
// `right`, the allowed size, is a clause of each function and not a type of tables: find reads through `&[Bucket]` and put writes through `&mut [Bucket]`, so two types would carry it, and spots, places and lists would keep their own clauses.
#![tactic(auto)]

mod finding;
mod moving;
mod taking;

pub use finding::{Found, Spot, find, locate};
pub use moving::{occupy, relocate, replace_payload};
pub use taking::take;
