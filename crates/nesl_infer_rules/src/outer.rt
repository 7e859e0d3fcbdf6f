//! What is outside of an expression.

ghost use Rattle.nesl_infer_rules.specs.Contexts.{AreClosed};
ghost use Rattle.nesl_infer_rules.specs.Closed.{closed-prop};

use crate::state::OwnName;
use nesl_types::Context;

/// The top-level names, and the function whose body an expression is in, if it is in one.
#[derive(Drop)]
pub struct Outer<'a, P> {
    pub context: &'a Context<P>,
    pub own: Option<OwnName>,
    pub ghost closed: { AreClosed context.now } by { closed-prop context.now },
}
