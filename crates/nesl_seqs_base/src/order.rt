//! By what the best element is chosen.

/// Which element is looked for.
#[derive(Clone, Copy)]
pub enum Order {
    Greatest,
    Least,
}

/// What elements are ordered by: themselves, or their codes.
#[derive(Clone, Copy)]
pub enum Kind {
    Numbers,
    Codes,
}

/// The best element.
#[derive(Clone, Copy)]
pub struct Best {
    pub place: usize,
    /// The number by which it is ordered.
    pub key: i64,
}
