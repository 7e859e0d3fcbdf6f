// A function's line, from its head and its body.

ghost use Rattle.std.specs.Prelude.{◌≡◌, ◌≤◌, ◌<◌, Some, None, Err, Option, IfOk, MatchOption};
ghost use Rattle.nesl_syntax_tree.specs.Trees.{Tree, SignatureTree, height, pattern_height};
ghost use Rattle.nesl_syntax_tree.specs.Trees as trees;
ghost use Rattle.nesl_syntax_tree.specs.Views.{tree_of, pattern_tree};
ghost use Rattle.nesl_syntax_tree.specs.Parts.{Sees, SeesPattern};
ghost use Rattle.nesl_syntax.specs.Reading as reading;
ghost use Rattle.nesl_syntax.specs.declared.cut.Divider.TheVariants as divider;
ghost use Rattle.nesl_syntax.specs.Given.{Given, SeesOptional, SeesHead, GivesLine};
ghost use Rattle.nesl_syntax_tree.specs.Patterns.{pattern_in};
ghost use Rattle.nesl_lex.specs.Tokens.{placed};

use crate::cut::{Divider, cut};
use crate::line::Line;
use crate::parse::expression;
use crate::signature::{SignaturePart, signature};
use nesl_lex::token::{Kind, Name, Token};
use nesl_syntax_open::ParseFault;
use nesl_syntax_tree::parts::part::Part;
use nesl_syntax_tree::parts::pattern::{PatternPart, pattern_from, pattern_of};
use nesl_syntax_tree::tree::{Exp, Pattern};
use std::alloc::{AllocError, Global};

/// A function's parameter and its signature.
#[derive(Drop)]
pub struct Head {
    pub pattern: PatternPart,
    pub signature: Option<SignaturePart>,
}

// The pattern that the tokens are.
fn pattern(alloc: Global, tokens: &[Token]) -> Result<PatternPart, ParseFault>
    ensures { Given SeesPattern result (reading.pattern_read (placed tokens.now)) }
{
    let part = expression(alloc, tokens)?;
    match pattern_of(part) {
        Some(pattern) => Ok(pattern),
        None => Err(ParseFault::Syntax),
    }
}

// The pattern with an expression's tokens on the heap, if they are one's.
fn on_heap(alloc: Global, exp: Box<Exp>) -> Result<Option<Box<Pattern>>, AllocError>
    ensures { IfOk result (λ r. let wanted = pattern_in (tree_of exp.value) in
        MatchOption r (wanted ≡ None) (λ p. wanted ≡ Some (pattern_tree p.value))) }
{
    match pattern_from(alloc, Box::into_inner(exp))? {
        Some(pattern) => Ok(Some(Box::new(alloc, pattern)?)),
        None => Ok(None),
    }
}

// A parameter, and a signature after a `:`, if there is one.
fn read_head(alloc: Global, tokens: &[Token]) -> Result<Head, ParseFault>
    ensures { Given SeesHead result (reading.head_in (placed tokens.now)) }
{
    match cut(Divider::Colon, tokens) {
        None => {
            let pattern = pattern(alloc, tokens)?;
            Ok(Head {
                pattern,
                signature: None,
            })
        }
        Some((front, behind)) => {
            let pattern = pattern(alloc, front)?;
            let signature = Some(signature(alloc, behind)?);
            Ok(Head { pattern, signature })
        }
    }
}

// Drops the parts of a line with one that is too high.
fn too_high<T: Drop>(parts: T) -> Result<Line, ParseFault>
    ensures { result ≡ Err ParseFault.Nested }
{
    drop(parts);
    Err(ParseFault::Nested)
}

// The line of a function, whose signature may be too high.
fn function_with(
    name: Vec<u8>,
    pattern: Box<Pattern>,
    signature: Option<SignaturePart>,
    body: Box<Exp>,
) -> Result<Line, ParseFault>
    ensures { (s : Option SignatureTree) → SeesOptional signature s → height (tree_of body.value) ≤ 100 →
        pattern_height (pattern_tree pattern.value) ≤ 100 →
        GivesLine result (Some (trees.function name.items (pattern_tree pattern.value) s (tree_of body.value))) }
{
    match signature {
        None => Ok(Line::Fun {
            name,
            parameter: pattern,
            signature: None,
            body,
        }),
        Some(part) => match part {
            SignaturePart::Built(signature) => {
                Ok(Line::Fun {
                    name,
                    parameter: pattern,
                    signature: Some(signature),
                    body,
                })
            }
            SignaturePart::High => too_high((name, pattern, body)),
        },
    }
}

// The line of a function's parts.
fn function_of(alloc: Global, name: Vec<u8>, head: Head, body: Part) -> Result<Line, ParseFault>
    ensures { (h : reading.Heads) (e : Tree) → SeesHead head h → Sees body e →
        GivesLine result (Some (reading.function_of name.items h e)) }
{
    let Head { pattern, signature } = head;
    match pattern {
        PatternPart::Built { exp: parameter, .. } => match body {
            Part::Built { exp, .. } => match on_heap(alloc, parameter)? {
                Some(pattern) => function_with(name, pattern, signature, exp),
                None => Err(ParseFault::Syntax),
            },
            Part::High(_) => too_high((name, parameter, signature)),
        },
        PatternPart::High => too_high((name, signature, body)),
    }
}

// A function's line after its name.
fn function_named(alloc: Global, name: &Name, tokens: &[Token]) -> Result<Line, ParseFault>
    ensures { GivesLine result (reading.function_with name.now.letters.items
        (reading.cut divider.Equal (placed tokens.now))) }
{
    let Some((front, behind)) = cut(Divider::Equal, tokens) else {
        return Err(ParseFault::Syntax);
    };
    let name = Vec::from_slice(alloc, name.as_slice())?;
    let head = read_head(alloc, front)?;
    let body = expression(alloc, behind)?;
    function_of(alloc, name, head, body)
}

/// A function's line after its first word.
pub fn function(alloc: Global, tokens: &[Token]) -> Result<Line, ParseFault>
    ensures { GivesLine result (reading.function_in (placed tokens.now)) }
{
    let [first, rest @ ..] = tokens else {
        return Err(ParseFault::Syntax);
    };
    match &first.kind {
        Kind::Name(name) => function_named(alloc, name, rest),
        _ => Err(ParseFault::Syntax),
    }
}
