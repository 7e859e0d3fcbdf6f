//! Why a definition is refused.

/// Why a name may not be defined so.
#[derive(Clone, Copy, PartialEq, Eq, Debug)]
pub enum Refusal {
    /// Its type would change, and the body of another function refers to it.
    Retype,
    /// It is the name of a built-in function or of a datatype, or it is `it`; or it is bound, and would become a
    /// datatype.
    Taken,
}
