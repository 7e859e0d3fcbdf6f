//! Functions that read a sequence: reductions, scans, the greatest and the least element, equality.

pub mod elements;
pub mod equal;
pub mod extremes;
pub mod plan;
pub mod reductions;
pub mod scans;
