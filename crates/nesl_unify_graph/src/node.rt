//! What is said of the type at a place of a graph.

/// What is said of the type at a place of a graph.
#[derive(Clone, Copy)]
pub enum Node {
    /// Nothing: it is a variable, and the place is the variable's number.
    Free,
    /// It is the type at another place.
    Same(usize),
    Int,
    Bool,
    Char,
    Named(u64),
    /// It is the sequences of the type at a place.
    SeqOf(usize),
    /// It is the pairs of the types at two places.
    Both(usize, usize),
    /// It is a part of a type with the types at an instance's places for its variables. The instance and the part are
    /// known by their places.
    Part { instance: usize, part: usize },
}
