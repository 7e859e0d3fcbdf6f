//! Why a form is refused before any evaluation.
ghost use Rattle.std.specs.Prelude.{◌≡◌, IfOk};
ghost use Rattle.nesl_session.specs.Forms.{IsFound, stopped_by, stopped_against};

use crate::forms::finding::Finding;
use nesl_infer::InferFault;
use nesl_reply::Fault;
use nesl_session_bindings::Refusal;
use std::alloc::AllocError;

/// Why a form is refused before any evaluation: the first check that fails.
#[derive(Clone, Copy)]
pub enum Stopped {
    /// The form is refused, and no work was done.
    Refused(Fault),
    /// Memory ran out.
    Memory,
}

impl Stopped {
    /// What is found of the form.
    pub fn found(self) -> Result<Finding, AllocError>
        ensures { IfOk result (IsFound self) }
    {
        match self {
            Stopped::Refused(fault) => Ok(Finding::Refused(fault, 0)),
            Stopped::Memory => Err(AllocError),
        }
    }
}

// Why there is no type.
pub(crate) fn untyped(fault: InferFault) -> Stopped
    ensures { result ≡ stopped_by fault }
{
    match fault {
        InferFault::Unknown { span } => Stopped::Refused(Fault::Unknown(span)),
        InferFault::IllTyped => Stopped::Refused(Fault::IllTyped),
        InferFault::Ambiguous => Stopped::Refused(Fault::Ambiguous),
        InferFault::Memory => Stopped::Memory,
    }
}

// Why the definition is refused.
pub(crate) fn refused(refusal: Refusal) -> Stopped
    ensures { result ≡ stopped_against refusal }
{
    match refusal {
        Refusal::Retype => Stopped::Refused(Fault::Retype),
        Refusal::Taken => Stopped::Refused(Fault::Taken),
    }
}
