//! Functions that reorder: by places, by writes, and woven.
#![tactic(auto)]

pub mod gather;
pub mod marks;
pub mod permute;
pub mod plan;
pub mod woven;
pub mod write;
