//! Tests of the service over sockets, of eight threads that count, and of when helpers are asked for. `scripts/test`
//! plays further clients and browsers to the program.
#![tactic(auto)]

#[cfg(test)]
mod at_once;
#[cfg(test)]
mod client;
#[cfg(test)]
mod counting;
#[cfg(test)]
mod in_turn;
#[cfg(test)]
mod sparing;
