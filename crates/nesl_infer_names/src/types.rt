//! The names of a written type.

ghost use Rattle.std.specs.Prelude.{◌≡◌};
ghost use Rattle.nesl_syntax_tree.specs.Views.{type_tree};
ghost use Rattle.nesl_infer_names.specs.Firsts.{earlier, first};
ghost use Rattle.nesl_infer_names.specs.Names.{unknown_types, datatype_in};

use crate::found::note;
use crate::known::is_datatype;
use nesl_lex::token::Span;
use nesl_syntax_tree::tree::{TypeExp, TypeNode};
use nesl_types::Context;

/// Notes the first name that is no datatype.
pub fn walk_type<P: Drop>(context: &Context<P>, found: &mut Option<Span>, ty: &TypeExp)
    ensures { found.new ≡ earlier found.old (first (unknown_types (datatype_in context.now) (type_tree ty.now))) }
{
    match &ty.node {
        TypeNode::Int => {}
        TypeNode::Bool => {}
        TypeNode::Char => {}
        TypeNode::Name { name, token: span } => note(
            found,
            is_datatype(context, name.as_slice()),
            *span,
        ),
        TypeNode::Sequence(item) => walk_type(context, found, item),
        TypeNode::Pair {
            left: first,
            right: second,
        } => {
            walk_type(context, found, first);
            walk_type(context, found, second);
        }
    }
}
