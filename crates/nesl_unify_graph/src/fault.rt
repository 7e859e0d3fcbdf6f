//! Why equations were not solved.

ghost use Rattle.std.specs.Prelude.{◌≡◌};

use std::alloc::{AllocError, AllocFailed};
use thiserror::Error;

/// Why equations were not solved.
#[derive(Debug, Drop, PartialEq, Eq, Error)]
pub enum SolveFault {
    /// No types of at most 4,096 nodes solve them.
    #[error("no solution")]
    NoSolution,
    /// Memory ran out.
    #[error("no memory")]
    Memory,
}

impl From<AllocError> for SolveFault {
    ghost use Rattle.nesl_unify_graph.specs.declared.fault.SolveFault.TheVariants.{Memory};

    ghost from_gives = { λ _ e. e ≡ Memory };

    fn from(_e: AllocError) -> SolveFault {
        SolveFault::Memory
    }
}

impl<T: Drop> From<AllocFailed<T>> for SolveFault {
    ghost use Rattle.nesl_unify_graph.specs.declared.fault.SolveFault.TheVariants.{Memory};

    ghost from_gives = { λ _ e. e ≡ Memory };

    fn from(_e: AllocFailed<T>) -> SolveFault {
        SolveFault::Memory
    }
}
