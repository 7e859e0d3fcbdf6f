//! Hints on errors, and accounts of costs.

use nesl_gradebook::book::Remark;
use nesl_session::Fault;
use nesl_session::session::Session;
use std::alloc::{AllocError, Global};

/// A source of hints and of accounts.
pub trait Adviser {
    /// Returns a hint on a form that this session has just refused for this fault, if there is one.
    fn hint(
        &self,
        alloc: Global,
        session: &Session,
        form: &[u8],
        fault: Fault,
    ) -> Result<Option<Remark>, AllocError>;

    /// Returns where the cost of a form comes from that this session would get next, in lines for a person. The form is
    /// evaluated anew, and recurs as deep as a session has levels.
    fn account(&self, alloc: Global, session: &Session, form: &[u8]) -> Result<Vec<u8>, AllocError>;
}
