//! Tests of houses and tables of users, and of exchanges of lines with them, by the public calls alone.
#![tactic(auto)]

#[cfg(test)]
mod closing;
#[cfg(test)]
mod exchanges;
#[cfg(test)]
mod granting;
#[cfg(test)]
mod houses;
#[cfg(test)]
mod interleaving;
#[cfg(test)]
mod sample;
