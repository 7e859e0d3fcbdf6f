//! Why no type was found.

ghost use Rattle.std.specs.Prelude.{◌≡◌};

use nesl_lex::token::Span;
use std::alloc::AllocError;

/// Why an expression or a function has no type.
#[derive(Debug, Drop, PartialEq, Eq)]
pub enum InferFault {
    /// A name that means nothing: the first in the text.
    Unknown { span: Span },
    /// No types of at most 4,096 nodes.
    IllTyped,
    /// More than one type.
    Ambiguous,
    /// Memory ran out.
    Memory,
}

impl From<AllocError> for InferFault {
    ghost use Rattle.nesl_infer.specs.declared.fault.InferFault.TheVariants.{Memory};

    ghost from_gives = { λ _ e. e ≡ Memory };

    fn from(_e: AllocError) -> InferFault {
        InferFault::Memory
    }
}
