// Parts of a type, built only up to height 100.

ghost use Rattle.std.specs.Prelude.{◌≡◌, ◌≤◌, ◌<◌, ◌+◌, IfOk, IfSome, MatchOption};
ghost use Rattle.nesl_syntax_tree.specs.declared.parts.types.TypePart.TheVariants as types;
ghost use Rattle.nesl_syntax_tree.specs.Trees.{TypeTree, type_height, written, sequence_type, type_on};
ghost use Rattle.nesl_syntax_tree.specs.Views.{type_tree};
ghost use Rattle.nesl_syntax_tree.specs.Made.{type_pair};
ghost use Rattle.nesl_syntax_tree.specs.Parts.{SeesType};

use crate::parts::part::{LIMIT, boxed, none, over};
use crate::tree::{TypeExp, TypeNode};
use nesl_lex::token::Span;
use std::alloc::{AllocError, Global};

/// A type with its height, or one that is too high and isn't built. It lies on the heap as an expression does.
#[derive(Drop)]
pub enum TypePart {
    Built { height: u8, written: Box<TypeExp> },
    High,
}

// Drops the parts of what is too high.
fn too_high<T: Drop>(parts: T) -> TypePart
    ensures { result ≡ types.High }
{
    drop(parts);
    TypePart::High
}

/// A type in these bytes, on the heap.
pub fn make_type(alloc: Global, span: Span, node: TypeNode) -> Result<Box<TypeExp>, AllocError>
    ensures { IfOk result (λ r. r.value ≡ record { span = span; node = node }) }
{
    boxed(alloc, TypeExp { span, node })
}

// A type over parts of at most this height.
fn built(written: Box<TypeExp>, height: u8) -> TypePart
    requires { height < 100 }
    ensures { result ≡ types.Built (height + 1) written }
{
    TypePart::Built {
        height: height + 1,
        written,
    }
}

/// A type of one token.
pub fn leaf(written: Box<TypeExp>) -> TypePart
    ensures { result ≡ types.Built 1 written }
{
    built(written, 0)
}

/// A type of these bytes in place of its own.
pub fn widen(part: TypePart, span: Span) -> TypePart
    ensures { (x : TypeTree) → SeesType part x → SeesType result (type_on span x) }
{
    match part {
        TypePart::Built {
            height,
            mut written,
        } => {
            written.span = span;
            TypePart::Built { height, written }
        }
        TypePart::High => TypePart::High,
    }
}

// A type with its height, where another one over it isn't too high.
fn low_enough(part: TypePart) -> Option<(Box<TypeExp>, u8)>
    ensures low { IfSome result (λ r. r.1 < 100) }
    ensures seen { (x : TypeTree) → SeesType part x →
        MatchOption result (100 ≤ type_height x) (λ r. (type_tree r.0.value ≡ x) × (r.1 ≡ type_height x)) }
{
    match part {
        TypePart::Built { written, height } if height < LIMIT => Some((written, height)),
        other => none(other),
    }
}

pub fn sequence_of(alloc: Global, part: TypePart, span: Span) -> Result<TypePart, AllocError>
    ensures { IfOk result (λ r. (x : TypeTree) → SeesType part x → SeesType r (written span (sequence_type x))) }
{
    let Some((element, height)) = low_enough(part) else {
        return Ok(TypePart::High);
    };
    let written = make_type(alloc, span, TypeNode::Sequence(element))?;
    Ok(built(written, height))
}

pub fn pair_of(alloc: Global, left: TypePart, right: TypePart) -> Result<TypePart, AllocError>
    ensures { IfOk result (λ r. (x y : TypeTree) → SeesType left x → SeesType right y → SeesType r (type_pair x y)) }
{
    let Some((left, m)) = low_enough(left) else {
        return Ok(too_high(right));
    };
    let Some((right, n)) = low_enough(right) else {
        return Ok(too_high(left));
    };
    let span = over(left.span, right.span);
    let written = make_type(alloc, span, TypeNode::Pair { left, right })?;
    Ok(built(written, m.max(n)))
}
