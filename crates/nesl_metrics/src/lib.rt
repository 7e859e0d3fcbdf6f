//! The numbers of a service: Prometheus's text, version 0.0.4, as a monitor reads it, and a line of JSON.
#![tactic(auto)]

pub mod answer;
pub mod line;
pub mod text;
