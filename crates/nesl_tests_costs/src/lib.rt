//! Tests of accounts, by the public calls alone.
#![tactic(auto)]

#[cfg(test)]
mod squares;
