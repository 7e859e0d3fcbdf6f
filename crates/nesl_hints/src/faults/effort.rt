//! What a hint finds out once more.

use crate::faults::asked::Asked;
use nesl_eval::{Outcome, eval_one};
use nesl_session::LEVELS;
use nesl_syntax_tree::tree::Exp;
use nesl_types::Ty;
use std::alloc::Global;

/// The most bytes of all texts together that are read, or whose types are found, once more.
const MOST_BYTES: usize = 8_192;

/// The most work of all evaluations together.
const MOST_WORK: u64 = 1_000_000;

/// What an expression evaluates to, and its type.
#[derive(Drop)]
pub(crate) struct Evaluated {
    pub ty: Ty,
    pub outcome: Outcome<Global>,
}

/// How much a hint may find out once more: what is left of it.
#[derive(Clone, Copy)]
pub(crate) struct Effort {
    bytes: usize,
    work: u64,
}

impl Effort {
    /// All that one hint may take.
    pub(crate) fn whole() -> Effort {
        Effort {
            bytes: MOST_BYTES,
            work: MOST_WORK,
        }
    }

    /// Whether this number of bytes may still be read.
    pub(crate) fn reaches(&self, bytes: usize) -> bool {
        bytes <= self.bytes
    }

    /// What an expression of the form evaluates to, and its type; `None` where it has none, or where too little is left
    /// to find it.
    pub(crate) fn evaluate(&mut self, asked: &Asked<'_>, exp: &Exp) -> Option<Evaluated> {
        let bytes = exp.span.end.saturating_sub(exp.span.start);
        self.bytes = self.bytes.checked_sub(bytes)?;
        let meanings = asked.session.meanings();
        let Ok(ty) = meanings.infer_exp(asked.alloc, exp) else {
            return None;
        };
        let most = self.work.min(asked.budget());
        let outcome = eval_one(asked.alloc, asked.environment(), exp, LEVELS, most);
        let spent = match &outcome {
            Outcome::Done { work, .. } => *work,
            Outcome::Fault { work, .. } => *work,
            _ => most,
        };
        self.work = self.work.saturating_sub(spent);
        Some(Evaluated { ty, outcome })
    }
}
