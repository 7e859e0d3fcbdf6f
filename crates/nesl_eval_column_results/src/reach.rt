// How far the recursion over code may go.
ghost use Rattle.std.specs.Prelude.{◌≡◌, ◌+◌, ◌-◌, ◌<◌, IfSome};

/// How many nodes deep the recursion over code may go at the most. The stack is laid out for it.
pub const HEIGHT: u32 = 128;

/// How many columns may wait at the same time, while others are made.
const COLUMNS: usize = 1024;

/// How far the recursion over code may go: how many levels, as the evaluator counts them, how many nodes deep, and
/// with how many more columns that wait.
#[derive(Clone, Copy)]
pub struct Reach {
    pub levels: u32,
    pub height: u32,
    pub columns: usize,
}

/// At the root of code that has `levels` levels.
#[inline]
pub fn at_root(levels: u32) -> Reach
    ensures levels { result.levels ≡ levels }
    ensures rest { (result.height ≡ 128) × (result.columns ≡ 1024) }
{
    Reach {
        levels,
        height: HEIGHT,
        columns: COLUMNS,
    }
}

/// In the parts of a node, if it may be entered.
#[inline]
pub fn below(reach: Reach) -> Option<Reach>
    ensures { IfSome result (λ r. (0 < reach.levels) × (r.levels ≡ reach.levels - 1) × (reach.height ≡ r.height + 1)
        × (r.columns ≡ reach.columns)) }
{
    let levels = reach.levels.checked_sub(1)?;
    let height = reach.height.checked_sub(1)?;
    Some(Reach {
        levels,
        height,
        columns: reach.columns,
    })
}

/// Beside `waiting` columns that wait, if there may be that many.
#[inline]
pub fn beside(reach: Reach, waiting: usize) -> Option<Reach>
    ensures { IfSome result (λ r. (r.levels ≡ reach.levels) × (r.height ≡ reach.height)
        × (reach.columns ≡ r.columns + waiting)) }
{
    let columns = reach.columns.checked_sub(waiting)?;
    Some(Reach {
        levels: reach.levels,
        height: reach.height,
        columns,
    })
}
