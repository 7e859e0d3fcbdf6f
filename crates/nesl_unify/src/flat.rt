//! Types whose parts are variables.

/// A type whose parts are variables.
#[derive(Clone, Copy)]
pub enum Flat {
    Int,
    Bool,
    Char,
    /// A type variable, by its number.
    Var(u64),
    /// A datatype, by its tag: its number in order of definition from 0.
    Named(u64),
    /// Sequences of what a variable stands for.
    SeqOf(u64),
    /// Pairs of what two variables stand for.
    Both(u64, u64),
}
