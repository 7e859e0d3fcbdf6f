//! The first name that refers to nothing, as far as a walk has come.

ghost use Rattle.std.specs.Prelude.{◌≡◌};
ghost use Rattle.nesl_infer_names.specs.Firsts.{earlier, first};
ghost use Rattle.nesl_infer_names.specs.Names.{span_unless_known};

use nesl_lex::token::Span;

/// Notes the span unless the name there is known, or another was noted before.
pub fn note(found: &mut Option<Span>, known: bool, span: Span)
    ensures { found.new ≡ earlier found.old (first (span_unless_known known span)) }
{
    if !known && found.is_none() {
        *found = Some(span);
    }
}

/// Notes what was found in a later part, unless something was noted before.
pub fn add(found: &mut Option<Span>, later: Option<Span>)
    ensures { found.new ≡ earlier found.old later }
{
    if found.is_none() {
        *found = later;
    }
}
