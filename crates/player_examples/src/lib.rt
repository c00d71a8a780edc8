// Examples of players and of listings, each proved and then run.
#![tactic(auto)]

#[cfg(test)]
mod appending;
#[cfg(test)]
mod card;
#[cfg(test)]
mod granting;
#[cfg(test)]
mod labels;
#[cfg(test)]
mod listings;
#[cfg(test)]
mod mixed;
#[cfg(test)]
mod opening;
#[cfg(test)]
mod playing;
#[cfg(test)]
mod room;
#[cfg(test)]
mod settling;
#[cfg(test)]
mod sizes;
#[cfg(test)]
mod tapes;
#[cfg(test)]
mod twins;
