//! Functions that make sequences of parts and pieces, ranges, pairs and levels.
#![tactic(auto)]

mod building;
pub mod levels;
pub mod pairs;
pub mod pieces;
pub mod plan;
pub mod ranges;
pub mod replace;
pub mod sides;
