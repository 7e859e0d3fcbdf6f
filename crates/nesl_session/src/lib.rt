//! One user's session: the answer to a line, and what the line changes. A session is the replay of its stored lines.
#![tactic(auto)]

pub mod answer;
mod evaluator;
mod form;
mod forms;
mod line;
pub mod session;
mod standing;

pub use form::LEVELS;
pub use line::{LONGEST, MOST_RECORDED};
pub use nesl_reply::{Fault, Stop};
pub use nesl_session_meaning::{laws, limits};
