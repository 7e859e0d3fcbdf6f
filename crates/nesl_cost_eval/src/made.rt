//! What is made of values, where the only reasons against it are memory and an ill-typed expression.
ghost use Rattle.std.specs.Prelude.{◌≡◌, ◌++◌, ◌∷◌, [], Some, None, MatchResult, cond, map};
ghost use Rattle.nesl_values.specs.Parts.{as_bool};
ghost use Rattle.nesl_values.specs.Tree.{sequence};
ghost use Rattle.nesl_values.specs.View.{tree_of};
ghost use Rattle.nesl_values_builder.specs.Elements.{elements_of};
ghost use Rattle.nesl_eval_meaning.specs.Outcome.{lengths, common_places};
ghost use Rattle.nesl_cost_meaning.specs.Traced.{given, charged};
ghost use Rattle.nesl_cost_eval.specs.Writes.{Book, Writes, LenIs};

use crate::unfinished::{Unfinished, halted};
use nesl_eval_nodes::nodes::{add, finish, keep, keep_if, length_of_all, read_truth};
use nesl_lex::token::Span;
use nesl_values::Value;
use nesl_values_builder::SequenceBuilder;
use std::alloc::Global;

/// One more value.
pub(crate) fn hold<'a>(values: &mut Vec<Value>, value: Value) -> Result<(), Unfinished<'a>>
    ensures { MatchResult result
        (λ _. values.new.items ≡ values.old.items ++ value ∷ []) (λ e. e ≡ Unfinished.Memory) }
{
    match keep(values, value) {
        Ok(()) => Ok(()),
        Err(_) => Err(Unfinished::Memory),
    }
}

/// The place, if the filter holds there.
pub(crate) fn hold_if<'a>(
    kept: &mut Vec<usize>,
    place: usize,
    holds: bool,
) -> Result<(), Unfinished<'a>>
    ensures { MatchResult result
        (λ _. kept.new.items ≡ kept.old.items ++ cond holds (place ∷ []) []) (λ e. e ≡ Unfinished.Memory) }
{
    match keep_if(kept, place, holds) {
        Ok(()) => Ok(()),
        Err(_) => Err(Unfinished::Memory),
    }
}

/// One more element.
pub(crate) fn hold_element<'a>(
    made: &mut SequenceBuilder<Global>,
    value: Value,
) -> Result<(), Unfinished<'a>>
    ensures { MatchResult result
        (λ _. elements_of made.new ≡ elements_of made.old ++ tree_of value ∷ []) (λ e. e ≡ Unfinished.Memory) }
{
    match add(made, value) {
        Ok(()) => Ok(()),
        Err(_) => Err(Unfinished::Memory),
    }
}

/// The sequence that was made.
pub(crate) fn finished<'a>(made: SequenceBuilder<Global>) -> Result<Value, Unfinished<'a>>
    ensures { MatchResult result (λ v. tree_of v ≡ sequence (elements_of made)) (λ e. e ≡ Unfinished.Memory) }
{
    match finish(made) {
        Ok(value) => Ok(value),
        Err(_) => Err(Unfinished::Memory),
    }
}

/// A truth value.
pub(crate) fn truth_of<'a>(value: Value) -> Result<bool, Unfinished<'a>>
    ensures { MatchResult result (λ b. as_bool (tree_of value) ≡ Some b) (λ e. (e ≡ Unfinished.Stuck)
        × (as_bool (tree_of value) ≡ None)) }
{
    match read_truth(value) {
        Ok(truth) => Ok(truth),
        Err(_) => Err(Unfinished::Stuck),
    }
}

/// The length of sequences of one length.
pub(crate) fn common_len<'a>(sequences: &[Value], span: Span) -> Result<usize, Unfinished<'a>>
    ensures { (b : Book) → Writes LenIs b result b
        (given (lengths (map tree_of sequences.now)) (λ ns. charged span (common_places span ns))) }
{
    halted(length_of_all(sequences, span))
}
