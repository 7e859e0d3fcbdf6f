//! Serves browsers: the page, the requests that are allowed, and lines over WebSockets.
#![tactic(auto)]

pub mod access;
pub mod answer;
pub mod asked;
pub mod frames;
pub mod greet;
pub mod head;
pub mod lines;
pub mod messages;
mod rest;
pub mod route;
pub mod wire;
