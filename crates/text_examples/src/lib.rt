// Examples of the text form of tapes, each proved and then run.
#![tactic(auto)]

#[cfg(test)]
mod calls;
#[cfg(test)]
mod faults;
#[cfg(test)]
mod lines;
#[cfg(test)]
mod room;
#[cfg(test)]
mod words;
