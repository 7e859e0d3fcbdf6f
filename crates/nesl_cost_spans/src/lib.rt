//! The law that a span names one node of a text, so that a cost that is charged at a span is that node's.
#![tactic(auto)]

pub mod laws;
