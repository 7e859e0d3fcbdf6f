//! The law of what code evaluates to.

ghost use Rattle.nesl_eval_code.specs.Laws.{RunsAsMeant};

/// Code that means an expression evaluates to what the expression does, where that is not stuck.
pub fn runs_as_meant()
    ensures { RunsAsMeant }
{}
