// A player of lists of calls on a service of its own: it holds each grant between its begin and its ending, and writes down every call with its answer.
#![tactic(auto)]

mod command;
mod hand;
mod life;
mod notebook;
mod obeying;
mod settling;
mod twins;

pub use command::Command;
pub use life::{Player, play_both};
pub use notebook::Notebook;
