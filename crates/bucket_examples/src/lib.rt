// Examples of the bucket map, over 1 to 4,096 buckets: each is proved to be safe and to end, and then run.
#![tactic(auto)]

#[cfg(test)]
mod areas;
#[cfg(test)]
mod blanks;
#[cfg(test)]
mod both_lines;
#[cfg(test)]
mod chains;
#[cfg(test)]
mod closed;
#[cfg(test)]
mod large;
#[cfg(test)]
mod mixed;
#[cfg(test)]
mod puts;
#[cfg(test)]
mod runs;
#[cfg(test)]
mod small_tables;
#[cfg(test)]
mod steps;
#[cfg(test)]
mod upkeep;
