//! Laws of accounts.

ghost use Rattle.nesl_cost_meaning.specs.Laws.{ErasesToOutcome, SumsUp};
ghost use Rattle.nesl_cost_meaning.specs.Steps.{StepsOnProcessors};

/// What is traced, without its account, is what the expression evaluates to.
pub fn erases_to_outcome()
    ensures { ErasesToOutcome }
{}

/// The works of all charges add up to the work, and the depths of those on the critical path to the depth.
pub fn sums_up()
    ensures { SumsUp }
{}

/// On p processors the levels of a value's account take no fewer steps than its depth and the p-th part of its work,
/// and no more than both together.
pub fn steps_on_processors()
    ensures { StepsOnProcessors }
{}
