//! What is said of a form, by the fault for which a session refuses it.

mod asked;
mod definitions;
mod effort;
mod finding;
mod inside;
mod limits;
mod refusals;
mod saying;
mod sources;
mod values;

pub use asked::Asked;
pub use saying::hint_on_fault;
