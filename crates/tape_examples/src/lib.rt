// Examples of tapes and of rings, each proved and then run.
#![tactic(auto)]

#[cfg(test)]
mod rings;
#[cfg(test)]
mod tapes;
#[cfg(test)]
mod writing;
