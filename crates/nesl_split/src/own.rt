//! Values of which a thread alone counts the owners.
ghost use Rattle.std.specs.Prelude.{◌≡◌, IfSome, MatchResult, IfOk, map};
ghost use Rattle.nesl_values.specs.View.{tree_of};

use crate::lends::Lends;
use crate::referred::places_referred;
use crate::short::{Allowance, copy_if_short};
use crate::turns::{Interval, Turns};
use nesl_eval_nodes::meter::Stop;
use nesl_eval_nodes::nodes::{keep, share};
use nesl_values::Value;
use std::alloc::Global;

// Returns a copy of a short value, or else one more owner of it.
fn own_value(
    value: &Value<Global>,
    allowance: &mut Allowance,
    alloc: Global,
) -> Result<Value<Global>, Stop>
    ensures { MatchResult result (λ v. tree_of v ≡ tree_of value.now) (λ e. e ≡ Stop.Memory) }
{
    match copy_if_short(value, allowance, alloc) {
        Some(copy) => Ok(copy),
        None => share(value),
    }
}

// Returns these values, of which the short ones are copied.
fn own_values(values: &[Value<Global>], alloc: Global) -> Result<Vec<Value<Global>>, Stop>
    ensures { IfOk result (λ own. map tree_of own.items ≡ map tree_of values.now) }
{
    let mut own = Vec::new(alloc);
    let mut allowance = Allowance::new();
    for value in values {
        let one = own_value(value, &mut allowance, alloc)?;
        keep(&mut own, one)?;
    }
    Ok(own)
}

/// Returns values for the thread of a half: those of the names, and the top level. The short ones are copies, whose
/// owners no other thread counts. The half with the first turn needs none, since the thread that has the values goes on
/// with it. If there is no memory for them, the half goes on with the values that are there.
pub(crate) fn values_for<R, H, G, T: Lends>(
    interval: &Interval<'_, R, H, G, T>,
    turns: Turns,
) -> Option<(Vec<Value<Global>>, T)>
    ensures names { IfSome result (λ own. map tree_of own.0.items ≡ map tree_of interval.now.room.now.names.now) }
    ensures tops { IfSome result (λ own. T.table own.1 ≡ T.table interval.now.crew.now.tops.now) }
{
    if turns.from == 0 {
        return None;
    }
    let Interval {
        room,
        block,
        crew,
        ..
    } = *interval;
    let wanted = places_referred(block, room.bodies, crew.alloc).ok()?;
    let names = own_values(room.names, crew.alloc).ok()?;
    let tops = crew.tops.lend(&wanted, crew.alloc).ok()?;
    Some((names, tops))
}
