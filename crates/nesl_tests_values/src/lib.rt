//! Tests of values and of their texts, by the public calls alone.
#![tactic(auto)]

#[cfg(test)]
mod chains;
#[cfg(test)]
mod desk;
#[cfg(test)]
mod made;
#[cfg(test)]
mod memory;
#[cfg(test)]
mod rows;
#[cfg(test)]
mod sharing;
#[cfg(test)]
mod telling;
#[cfg(test)]
mod texts;
