//! What a cost is of.

/// What a cost is of.
#[derive(Clone, Copy)]
pub enum Measure {
    Work,
    Depth,
}
