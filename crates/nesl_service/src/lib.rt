//! The service: connections over sockets and WebSockets. Each carries the lines of one user, and a few threads serve
//! them all.
#![tactic(auto)]

mod accept;
pub mod browse;
pub mod crowd;
mod front;
mod helm;
mod hints;
mod opening;
mod parts;
pub mod seat;
mod seated;
pub mod service;
mod streams;
pub mod wire;
