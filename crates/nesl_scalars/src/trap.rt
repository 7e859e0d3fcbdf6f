//! Why an evaluation has no value.

/// Why an evaluation has no value. The list is this profile's.
#[derive(Clone, Copy, PartialEq, Eq, Debug)]
pub enum Trap {
    /// A number lies outside 64 bits with a sign.
    Overflow,
    /// A divisor is 0.
    Division,
    /// An index, a count of places or an argument lies outside what the function allows.
    Range,
    /// A number is no character's code.
    Code,
    /// A length is below 0, or two lengths differ that must not.
    Length,
    /// The least or the greatest of no elements.
    Empty,
    /// Two elements go to one place.
    Permutation,
    /// Lengths of pieces are below 0 or don't sum up to the whole.
    Count,
    /// The step of a range is below 1.
    Stride,
    /// No level is left.
    Deep,
    /// A value that is made of parts would have too many nodes.
    Large,
}
