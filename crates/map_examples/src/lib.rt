// Examples of labels and of the straight map: each is proved to be safe and to end, and then run.
#![tactic(auto)]

#[cfg(test)]
mod labels;
#[cfg(test)]
mod straight_maps;
