//! Tests of keys, and of how users are known, by the public calls alone.
#![tactic(auto)]

#[cfg(test)]
mod files;
#[cfg(test)]
mod hearing;
#[cfg(test)]
mod making;
#[cfg(test)]
mod requests;
#[cfg(test)]
mod sample;
#[cfg(test)]
mod signing_in;
