// Why tokens have no form.

use std::alloc::{AllocError, AllocFailed};
use thiserror::Error;

/// Why `parse_form` gives no form.
#[derive(Clone, Copy, PartialEq, Eq, Debug, Error)]
pub enum ParseFault {
    /// The tokens have no tree.
    #[error("the tokens have no tree")]
    Syntax,
    /// Their tree is higher than 100.
    #[error("the tree of the tokens is higher than 100")]
    Nested,
    #[error("out of memory")]
    Memory,
}

impl From<AllocError> for ParseFault {
    ghost use Rattle.std.specs.Prelude.{◌≡◌};
    ghost use Rattle.nesl_syntax_open.specs.declared.fault.ParseFault.TheVariants.{Memory};

    ghost from_gives = { λ _ e. e ≡ Memory };

    fn from(_error: AllocError) -> Self {
        ParseFault::Memory
    }
}

impl<T: Drop> From<AllocFailed<T>> for ParseFault {
    ghost use Rattle.std.specs.Prelude.{◌≡◌};
    ghost use Rattle.nesl_syntax_open.specs.declared.fault.ParseFault.TheVariants.{Memory};

    ghost from_gives = { λ _ e. e ≡ Memory };

    fn from(_error: AllocFailed<T>) -> Self {
        ParseFault::Memory
    }
}
