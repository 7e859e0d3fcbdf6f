//! Evaluation in halves: where a helper is granted, a machine cuts its rounds in two, and threads share the halves.
#![tactic(auto)]

mod asker;
mod columns;
mod crew;
mod found;
mod grant;
mod halves;
mod intervals;
mod lends;
mod one;
mod own;
mod reached;
mod referred;
mod rounds;
mod run;
mod short;
mod turns;

pub use crew::{Crew, fork};
pub use nesl_eval_helpers::{Free, Gate, Helpers, NoHelpers, Permits, Place, Pool};
pub use one::eval_split;
pub use run::evaluate_in_halves;
