//! The law of what blocks evaluate to.

ghost use Rattle.nesl_eval_code.specs.BlockLaws.{RunsAsCode, LeavesItsValue};

/// Code that is laid out in the order of evaluation evaluates to the same as before.
pub fn blocks_run_as_code()
    ensures whole { RunsAsCode }
    ensures before { LeavesItsValue }
{}
