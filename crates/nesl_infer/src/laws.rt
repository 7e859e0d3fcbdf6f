//! Laws of typing.

ghost use Rattle.nesl_infer_rules.specs.Contexts.{AreClosed};
ghost use Rattle.nesl_infer.specs.Laws.{ContentsHaveOneVerdict, ExpressionsHaveOneVerdict, FunctionsHaveOneVerdict};
ghost use Rattle.nesl_infer.specs.Laws.{MeaningsHaveInstances, TypingsHaveInstances};
ghost use Rattle.nesl_infer.specs.References.{TypingsDependOnReferences};

use nesl_types::Context;

/// What has a type has its instances, where types of their classes are put for variables.
pub fn typings_have_instances()
    ensures { TypingsHaveInstances }
{}

/// What names mean has its instances, too, if no variable occurs in the types of top-level variables and datatypes.
pub fn meanings_have_instances<P>(context: &Context<P>)
    requires { AreClosed context.now }
    ensures { MeaningsHaveInstances context.now }
{}

/// Only what an expression refers to decides which types it has.
pub fn typings_depend_on_references()
    ensures { TypingsDependOnReferences }
{}

/// Whatever way a verdict is found, there is no other: of an expression, of a function, and of what a datatype's
/// records hold.
pub fn verdicts_are_one()
    ensures expressions { ExpressionsHaveOneVerdict }
    ensures functions { FunctionsHaveOneVerdict }
    ensures contents { ContentsHaveOneVerdict }
{}
