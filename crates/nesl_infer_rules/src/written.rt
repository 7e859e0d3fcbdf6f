//! Types as they are written.

ghost use Rattle.std.specs.Prelude.{◌≡◌, ◌<◌, length, IfOk, MatchOption};
ghost use Rattle.nesl_types_shared.specs.Term.{Term};
ghost use Rattle.nesl_types_shared.specs.Numbering.{IsBelow};
ghost use Rattle.nesl_types_shared.specs.Types.{type_at, Extends};
ghost use Rattle.nesl_syntax_tree.specs.Views.{type_tree};
ghost use Rattle.nesl_infer_rules.specs.Typing.{IsWritten};
ghost use Rattle.nesl_infer_names.specs.Names.{datatype_in};

use nesl_syntax_tree::tree::{TypeExp, TypeNode};
use nesl_types::{Context, Top};
use nesl_types_shared::{Bank, Shape};
use std::alloc::AllocError;

/// Puts the type that is written into a bank, and gives its place there, or `None` where a name in it is no datatype.
pub fn written_type<P: Drop>(
    context: &Context<P>,
    bank: &mut Bank,
    written: &TypeExp,
) -> Result<Option<usize>, AllocError>
    ensures extends { Extends bank.old bank.new }
    ensures written { IfOk result
        (λ o. MatchOption o
        ((u : Term) → IsWritten (datatype_in context.now) (type_tree written.now) u → ⊥)
        (λ p. (p < length bank.new)
        × IsWritten (datatype_in context.now) (type_tree written.now) (type_at bank.new p)
        × IsBelow 0 (type_at bank.new p))) }
{
    match &written.node {
        TypeNode::Int => Ok(Some(bank.put(Shape::Int)?)),
        TypeNode::Bool => Ok(Some(bank.put(Shape::Bool)?)),
        TypeNode::Char => Ok(Some(bank.put(Shape::Char)?)),
        TypeNode::Name { name, .. } => match context.get(name.as_slice()) {
            Some((Top::Datatype(tag, _), _)) => Ok(Some(bank.put(Shape::Named(*tag))?)),
            Some((Top::Variable(_), _)) => Ok(None),
            Some((Top::Function(_), _)) => Ok(None),
            None => Ok(None),
        },
        TypeNode::Sequence(item) => match written_type(context, bank, item)? {
            Some(item) => Ok(Some(bank.put(Shape::SeqOf(item))?)),
            None => Ok(None),
        },
        TypeNode::Pair {
            left: first,
            right: second,
        } => {
            let first = match written_type(context, bank, first)? {
                Some(first) => first,
                None => return Ok(None),
            };
            let second = match written_type(context, bank, second)? {
                Some(second) => second,
                None => return Ok(None),
            };
            Ok(Some(bank.put(Shape::Both(first, second))?))
        }
    }
}
