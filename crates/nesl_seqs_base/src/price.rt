//! What a function costs, and how large its result is.

/// The price of a function at an argument, known before the result is built.
#[derive(Clone, Copy, PartialEq, Eq)]
pub struct Price {
    /// 1, the elements read, and the nodes below the result's root.
    pub work: u128,
    /// 1, and for a reduction or a scan as many more as the number of elements read has binary digits.
    pub depth: u64,
    /// The nodes of the result.
    pub nodes: u128,
}
