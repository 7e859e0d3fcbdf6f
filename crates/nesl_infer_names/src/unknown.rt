//! The first name that refers to nothing.

ghost use Rattle.std.specs.Prelude.{◌≡◌, None, Some, [], IfOk};
ghost use Rattle.nesl_syntax_tree.specs.Views.{tree_of, pattern_tree, type_tree};
ghost use Rattle.nesl_infer_names.specs.Firsts.{first};
ghost use Rattle.nesl_infer_names.specs.Names.{names_in, datatype_in, unknown_names, unknown_of_function};
ghost use Rattle.nesl_infer_names.specs.Names.{unknown_types};

use crate::patterns::{bind, walk_pattern};
use crate::scope::Scope;
use crate::types::walk_type;
use crate::walk::{Setting, walk};
use nesl_lex::token::Span;
use nesl_syntax_tree::tree::{Exp, Pattern, TypeExp};
use nesl_types::Context;
use std::alloc::{AllocError, Global};

/// The first name that refers to nothing in an expression of the top level, or `None` where each refers to something.
pub fn unknown_in_exp<P: Drop>(
    alloc: Global,
    context: &Context<P>,
    exp: &Exp,
) -> Result<Option<Span>, AllocError>
    ensures { IfOk result (λ r. r ≡ first (unknown_names (names_in context.now None) [] (tree_of exp.now))) }
{
    let mut scope = Scope::new(alloc);
    let mut found = None;
    let setting = Setting {
        alloc,
        context,
        own: &None,
    };
    walk(&setting, &mut scope, &mut found, exp)?;
    Ok(found)
}

/// The first name that refers to nothing in the pattern and the body of a function with this name. A signature refers
/// to nothing: its names are variables where they are no datatypes.
pub fn unknown_in_function<P: Drop>(
    alloc: Global,
    context: &Context<P>,
    name: &[u8],
    pattern: &Pattern,
    body: &Exp,
) -> Result<Option<Span>, AllocError>
    ensures { IfOk result (λ r. r ≡ first (unknown_of_function (names_in context.now (Some name.now))
        (pattern_tree pattern.now) (tree_of body.now))) }
{
    let own = Some(Vec::from_slice(alloc, name)?);
    let mut scope = Scope::new(alloc);
    let mut found = None;
    walk_pattern(context, &mut found, pattern);
    bind(alloc, &mut scope, pattern)?;
    let setting = Setting {
        alloc,
        context,
        own: &own,
    };
    walk(&setting, &mut scope, &mut found, body)?;
    Ok(found)
}

/// The first name in a written type that is no datatype. A datatype that is being defined is none yet.
pub fn unknown_in_type<P: Drop>(
    context: &Context<P>,
    ty: &TypeExp,
) -> Result<Option<Span>, AllocError>
    ensures { IfOk result (λ r. r ≡ first (unknown_types (datatype_in context.now) (type_tree ty.now))) }
{
    let mut found = None;
    walk_type(context, &mut found, ty);
    Ok(found)
}
