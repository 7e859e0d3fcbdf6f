// Patterns, which are read as expressions.

ghost use Rattle.std.specs.Prelude.{◌≡◌, ◌≤◌, ◌<◌, IfOk, Option, option_map, Some, Err};
ghost use Rattle.nesl_syntax_tree.specs.Trees.{Tree, PatternTree};
ghost use Rattle.nesl_syntax_tree.specs.Patterns.{pattern_in, shape_pair, shape_record, with_span};
ghost use Rattle.nesl_syntax_tree.specs.Views.{tree_of, pattern_tree};
ghost use Rattle.nesl_syntax_tree.specs.Parts.{Sees, SeesPattern, PatternGiven};

use crate::parts::part::{Part, boxed, boxes, none};
use crate::tree::{Exp, Node, Pattern, PatternNode};
use nesl_lex::token::{Name, Span};
use std::alloc::{AllocError, Global};

/// An expression with a pattern's tokens and its height, or a pattern that is too high and isn't built. The pattern
/// itself is made once its place is there.
#[derive(Drop)]
pub enum PatternPart {
    Built { height: u8, exp: Box<Exp> },
    High,
}

// Drops what was read where memory ran out.
fn run_out<T: Drop, U>(error: AllocError, value: T) -> Result<U, AllocError>
    ensures { result ≡ Err error }
{
    drop(value);
    Err(error)
}

// A pair's pattern in these bytes, where both its parts are patterns.
fn pair_from(
    alloc: Global,
    span: Span,
    left: Option<Pattern>,
    right: Option<Pattern>,
) -> Result<Option<Pattern>, AllocError>
    ensures { IfOk result (λ r. option_map pattern_tree r ≡
        with_span span (shape_pair (option_map pattern_tree left) (option_map pattern_tree right))) }
{
    let Some(left) = left else {
        return Ok(none(right));
    };
    let Some(right) = right else {
        return Ok(none(left));
    };
    let (left, right) = boxes(alloc, left, right)?;
    let node = PatternNode::Pair { left, right };
    Ok(Some(Pattern { span, node }))
}

// The pattern of a name before `(` in these bytes, where what the parentheses hold is one.
fn record_from(
    alloc: Global,
    span: Span,
    name: Name,
    part: Option<Pattern>,
) -> Result<Option<Pattern>, AllocError>
    ensures { IfOk result (λ r. option_map pattern_tree r ≡
        with_span span (shape_record name.letters.items (option_map pattern_tree part))) }
{
    let Some(part) = part else {
        return Ok(none(name));
    };
    let part = boxed(alloc, part)?;
    let node = PatternNode::Record { name, part };
    Ok(Some(Pattern { span, node }))
}

/// The pattern with an expression's tokens. It recurs over a tree that is at most 100 high.
pub fn pattern_from(alloc: Global, exp: Exp) -> Result<Option<Pattern>, AllocError>
    ensures { IfOk result (λ r. option_map pattern_tree r ≡ pattern_in (tree_of exp)) }
{
    let (span, node) = exp.into_parts();
    match node {
        Node::Variable(name) => {
            let node = PatternNode::Name(name);
            Ok(Some(Pattern { span, node }))
        }
        Node::Pair { left, right } => {
            let left = match pattern_from(alloc, Box::into_inner(left)) {
                Ok(left) => left,
                Err(error) => return run_out(error, right),
            };
            match pattern_from(alloc, Box::into_inner(right)) {
                Ok(right) => pair_from(alloc, span, left, right),
                Err(error) => run_out(error, left),
            }
        }
        Node::Call { name, argument } => match pattern_from(alloc, Box::into_inner(argument)) {
            Ok(part) => record_from(alloc, span, name, part),
            Err(error) => run_out(error, name),
        },
        other => Ok(none(Exp { span, node: other })),
    }
}

/// The part as a pattern, where its tokens are one's.
pub fn pattern_of(part: Part) -> Option<PatternPart>
    ensures { (x : Tree) → Sees part x → PatternGiven result (pattern_in x) }
{
    match part {
        Part::Built {
            pattern,
            height,
            exp,
        } => {
            if pattern {
                Some(PatternPart::Built { height, exp })
            } else {
                none(exp)
            }
        }
        Part::High(true) => Some(PatternPart::High),
        Part::High(false) => None,
    }
}
