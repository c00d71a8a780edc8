// Examples of vectors, good and bad, each proved and then run.
#![tactic(auto)]

#[cfg(test)]
mod agreement;
#[cfg(test)]
mod reading;
