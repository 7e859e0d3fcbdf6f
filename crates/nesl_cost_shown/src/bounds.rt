//! The time of an account on a number of processors.
ghost use Rattle.std.specs.Prelude.{◌<◌, IfSome};
ghost use Rattle.nesl_cost_shown.specs.Bounds.{BoundSteps};

/// The steps that an account takes on a number of processors, level by level: at least, and at most. This is no
/// forecast for this program's helpers.
#[derive(Clone, Copy)]
pub struct Bounds {
    pub least: u64,
    pub most: u64,
}

/// The bounds for accounts of this work and this depth. `None` is for a sum above 64 bits.
#[tactic(auto, using(crate::proofs::Bounded::bounds_hold))]
pub fn bounds_on(processors: u64, work: u64, depth: u64) -> Option<Bounds>
    requires { 0 < processors }
    ensures { IfSome result (λ r. BoundSteps processors work depth r.least r.most) }
{
    let least = work.div_ceil(processors).max(depth);
    let most = (work / processors).checked_add(depth)?;
    Some(Bounds { least, most })
}
