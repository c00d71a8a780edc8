// Examples of a bare service: a host that holds its grant while it writes, and tests of the calls.
#![tactic(auto)]

#[cfg(test)]
mod areas;
#[cfg(test)]
mod holding;
#[cfg(test)]
mod hosts;
#[cfg(test)]
mod making;
mod programming;
#[cfg(test)]
mod settling;

pub use programming::program;
