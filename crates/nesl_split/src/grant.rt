//! Helpers granted for turns.
ghost use Rattle.std.specs.Prelude.{◌≡◌, ◌+◌, IfSome};
ghost use Rattle.nesl_split.specs.Intervals.{AreIn};

use crate::asker::{Moment, asker_of};
use crate::columns::are_in_columns;
use crate::turns::{Interval, Turns};
use nesl_eval_helpers::{Advice, Helpers};
use nesl_eval_nodes::held::Tops;
use std::alloc::Global;

/// A helper granted for turns, and how many more cuts may be nested.
pub(crate) struct Grant<P> {
    pub permit: P,
    pub cuts: u32,
}

/// Asks for a helper for these turns, if there are at least two and they may be cut.
pub(crate) fn ask_for<R, H: Helpers, G, T: Tops<Global>>(
    interval: &Interval<'_, R, H, G, T>,
    turns: Turns,
    moment: Moment,
    cuts: u32,
) -> Option<Grant<H::Permit>>
    requires { AreIn turns interval.now }
    ensures { IfSome result (λ grant. cuts ≡ grant.cuts + 1) }
{
    if cuts == 0 || turns.count() < 2 {
        return None;
    }
    let helpers = interval.crew.helpers;
    let asker = asker_of(interval, turns, moment);
    match helpers.advise(asker) {
        Advice::Pass => return None,
        Advice::AskUnlessInColumns if are_in_columns(interval, turns) => return None,
        _ => {}
    }
    let permit = helpers.ask_for(asker)?;
    Some(Grant {
        permit,
        cuts: cuts - 1,
    })
}
