//! Types but for their parts.

/// A type but for its parts, each of which is given by its place in a bank.
#[derive(Clone, Copy, PartialEq, Eq, Hash)]
pub enum Shape {
    Int,
    Bool,
    Char,
    /// A type variable, by its number.
    Var(u64),
    /// A datatype, by its tag: its number in order of definition from 0.
    Named(u64),
    /// Sequences of the type at a place.
    SeqOf(usize),
    /// Pairs of the types at two places.
    Both(usize, usize),
}
