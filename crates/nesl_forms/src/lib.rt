//! Texts as people write them, cut into forms: over several lines, with comments and blank lines between.
#![tactic(auto)]

mod bytes;
mod cutter;
pub mod line;
pub mod lines;
pub mod scan;
pub mod text;
