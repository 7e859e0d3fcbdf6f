//! Principal types.

ghost use Rattle.std.specs.Prelude.{◌≡◌, ℕ, [], Some, None, Err, option_map, IfErr, IfOk, IsErrOf, MatchOption};
ghost use Rattle.nesl_infer_rules.specs.Steps.{Gives};
ghost use Rattle.nesl_syntax_tree.specs.Views.{tree_of, pattern_tree, signature_tree, type_tree};
ghost use Rattle.nesl_infer.specs.Verdicts.{IsTypeOf, IsSchemeFor, IsDatatypeFor};
ghost use Rattle.nesl_types.specs.declared.classes.Class.{Class};
ghost use Rattle.nesl_types.specs.Class.{class_at};
ghost use Rattle.nesl_types_shared.specs.Term.{Term};
ghost use Rattle.nesl_infer_rules.specs.Contexts.{AreClosed};
ghost use Rattle.nesl_infer_rules.specs.Typing.{IsWritten};
ghost use Rattle.nesl_infer_names.specs.Firsts.{first};
ghost use Rattle.nesl_infer_names.specs.Names.{datatype_in, names_in};
ghost use Rattle.nesl_infer.specs.Uses.{unknown, uses, uses_of_function};
ghost use Rattle.nesl_infer_rules.specs.Principal.{HasNoType, HasNoFunctionType, IsPrincipal, IsPrincipalScheme, Typed};
ghost use Rattle.nesl_infer_rules.specs.Principal.{TypedFunction};

use crate::fault::InferFault;
use crate::integer::is_integer;
use crate::long::is_long;
use crate::scheme::scheme_of;
use crate::whole::constrain_whole;
use nesl_infer_names::{unknown_in_exp, unknown_in_function, unknown_in_type};
use nesl_infer_rules::locals::Locals;
use nesl_infer_rules::outer::Outer;
use nesl_infer_rules::pattern::constrain_pattern;
use nesl_infer_rules::signature::constrain_signature;
use nesl_infer_rules::state::{OwnName, State};
use nesl_infer_rules::written::written_type;
use nesl_lex::token::Span;
use nesl_syntax_tree::tree::{Exp, Pattern, Signature, TypeExp};
use nesl_types::{Class, Context, Scheme, Ty};
use nesl_types_shared::Bank;
use nesl_unify::SolveFault;
use nesl_unify::solve::is_below;
use std::alloc::{AllocError, Global};

/// A type, and the class of each of its variables.
#[derive(Drop)]
struct PrincipalType {
    ty: Ty,
    classes: Vec<Class>,
}

/// The principal type of an expression.
fn principal_type<P: Drop>(
    alloc: Global,
    context: &Context<P>,
    exp: &Exp,
) -> Result<PrincipalType, SolveFault>
    requires { AreClosed context.now }
    ensures principal { IfOk result (λ p. IsPrincipal (Typed context.now (tree_of exp.now))
        (class_at p.classes.items) p.ty) }
    ensures ill_typed { IsErrOf result SolveFault.NoSolution → HasNoType (Typed context.now (tree_of exp.now)) }
{
    let mut state = State::new(alloc);
    let root = state.add_any()?;
    let mut locals = Locals::new(alloc);
    let outer = Outer { context, own: None };
    constrain_whole(&mut state, &outer, &mut locals, exp, root)?;
    let solution = state.solve()?;
    let ty = solution.variable(alloc, root)?;
    Ok(PrincipalType {
        ty,
        classes: solution.classes,
    })
}

/// The variables of what a function takes and gives.
#[derive(Clone, Copy)]
struct Ends {
    takes: u64,
    gives: u64,
}

/// Adds what makes the types of two new variables those that a function takes and gives.
fn constrain_function<P: Drop>(
    state: &mut State,
    context: &Context<P>,
    name: &[u8],
    pattern: &Pattern,
    signature: &Option<Signature>,
    body: &Exp,
) -> Result<Ends, AllocError>
    requires { AreClosed context.now }
    ensures { IfOk result (λ o. Gives {X = Term
        × Term} state.old state.new (λ s. (s o.takes, s o.gives))
        (λ s of x. TypedFunction context.now name.now (pattern_tree pattern.now)
        (option_map signature_tree signature.now) (tree_of body.now) of x.0 x.1)) }
{
    let takes = state.add_any()?;
    let gives = state.add_any()?;
    let name = Vec::from_slice(state.alloc, name)?;
    let own = Some(OwnName { name, takes, gives });
    let outer = Outer { context, own };
    let mut locals = Locals::new(state.alloc);
    constrain_pattern(state, &outer, &mut locals, pattern, takes)?;
    constrain_signature(state, context, signature, takes, gives)?;
    constrain_whole(state, &outer, &mut locals, body, gives)?;
    Ok(Ends { takes, gives })
}

/// The principal scheme of a function.
fn principal_scheme<P: Drop>(
    alloc: Global,
    context: &Context<P>,
    name: &[u8],
    pattern: &Pattern,
    signature: &Option<Signature>,
    body: &Exp,
) -> Result<Scheme, SolveFault>
    requires { AreClosed context.now }
    ensures principal { IfOk result (IsPrincipalScheme
        (TypedFunction context.now name.now (pattern_tree pattern.now) (option_map signature_tree signature.now)
        (tree_of body.now))) }
    ensures ill_typed { IsErrOf result SolveFault.NoSolution
        → HasNoFunctionType (TypedFunction context.now name.now (pattern_tree pattern.now)
        (option_map signature_tree signature.now) (tree_of body.now)) }
{
    let mut state = State::new(alloc);
    let ends = constrain_function(&mut state, context, name, pattern, signature, body)?;
    let solution = state.solve()?;
    let takes = solution.variable(alloc, ends.takes)?;
    let gives = solution.variable(alloc, ends.gives)?;
    let scheme = scheme_of(alloc, takes, gives, solution.classes.as_slice())?;
    scheme.variables_have_classes();
    Ok(scheme)
}

/// The first name of an expression that refers to nothing.
fn first_unknown<P: Drop>(
    alloc: Global,
    context: &Context<P>,
    exp: &Exp,
) -> Result<Option<Span>, AllocError>
    ensures { IfOk result (λ r. r ≡ first (unknown (names_in context.now None) (uses [] (tree_of exp.now)))) }
{
    unknown_in_exp(alloc, context, exp)
}

/// The first name of a function's parameter and body that refers to nothing.
fn first_unknown_in_function<P: Drop>(
    alloc: Global,
    context: &Context<P>,
    name: &[u8],
    pattern: &Pattern,
    body: &Exp,
) -> Result<Option<Span>, AllocError>
    ensures { IfOk result (λ r. r ≡ first (unknown (names_in context.now (Some name.now))
        (uses_of_function (pattern_tree pattern.now) (tree_of body.now)))) }
{
    unknown_in_function(alloc, context, name, pattern, body)
}

/// Refuses a long expression in which a name is unknown. It can have enough names that solving takes seconds, which is
/// of no use there.
fn check_names<P: Drop>(alloc: Global, context: &Context<P>, exp: &Exp) -> Result<(), InferFault>
    ensures { IfErr result (λ f. IsTypeOf context.now (tree_of exp.now) (Err f)) }
{
    if is_long(exp) {
        if let Some(span) = first_unknown(alloc, context, exp)? {
            return Err(InferFault::Unknown { span });
        }
    }
    Ok(())
}

/// Refuses a function with a long body in which a name is unknown.
fn check_names_in_function<P: Drop>(
    alloc: Global,
    context: &Context<P>,
    name: &[u8],
    pattern: &Pattern,
    signature: &Option<Signature>,
    body: &Exp,
) -> Result<(), InferFault>
    ensures { IfErr result (λ f. IsSchemeFor context.now name.now (pattern_tree pattern.now)
        (option_map signature_tree signature.now) (tree_of body.now) (Err f)) }
{
    let _ = signature;
    if is_long(body) {
        if let Some(span) = first_unknown_in_function(alloc, context, name, pattern, body)? {
            return Err(InferFault::Unknown { span });
        }
    }
    Ok(())
}

/// The type of an expression at the top level.
///
/// # Errors In this order: the first unknown name in the text; no type of at most 4,096 nodes for each node, name and
/// pattern; more than one type.
pub fn infer_exp<P: Drop>(alloc: Global, context: &Context<P>, exp: &Exp) -> Result<Ty, InferFault>
    requires { AreClosed context.now }
    ensures { IsTypeOf context.now (tree_of exp.now) result }
{
    if is_integer(context, exp) {
        return Ok(Ty::int(alloc)?);
    }
    check_names(alloc, context, exp)?;
    match principal_type(alloc, context, exp) {
        Ok(PrincipalType { ty, classes: _ }) => {
            if is_below(0, &ty) {
                Ok(ty)
            } else {
                Err(InferFault::Ambiguous)
            }
        }
        Err(SolveFault::NoSolution) => match first_unknown(alloc, context, exp)? {
            Some(span) => Err(InferFault::Unknown { span }),
            None => Err(InferFault::IllTyped),
        },
        Err(SolveFault::Memory) => Err(InferFault::Memory),
    }
}

/// The scheme of a function.
///
/// # Errors
/// In this order: the first unknown name in the text; no types of at most 4,096 nodes.
pub fn infer_function<P: Drop>(
    alloc: Global,
    context: &Context<P>,
    name: &[u8],
    pattern: &Pattern,
    signature: &Option<Signature>,
    body: &Exp,
) -> Result<Scheme, InferFault>
    requires { AreClosed context.now }
    ensures { IsSchemeFor context.now name.now (pattern_tree pattern.now) (option_map signature_tree signature.now)
        (tree_of body.now) result }
{
    check_names_in_function(alloc, context, name, pattern, signature, body)?;
    match principal_scheme(alloc, context, name, pattern, signature, body) {
        Ok(scheme) => Ok(scheme),
        Err(SolveFault::NoSolution) => {
            match first_unknown_in_function(alloc, context, name, pattern, body)? {
                Some(span) => Err(InferFault::Unknown { span }),
                None => Err(InferFault::IllTyped),
            }
        }
        Err(SolveFault::Memory) => Err(InferFault::Memory),
    }
}

/// The type that is written, or `None` where a name in it is no datatype.
fn type_as_written<P: Drop>(
    alloc: Global,
    context: &Context<P>,
    written: &TypeExp,
) -> Result<Option<Ty>, AllocError>
    ensures { IfOk result
        (λ o. MatchOption o
        ((u : Term) → IsWritten (datatype_in context.now) (type_tree written.now) u → ⊥)
        (IsWritten (datatype_in context.now) (type_tree written.now))) }
{
    let mut bank = Bank::new(alloc);
    let place = match written_type(context, &mut bank, written)? {
        Some(place) => place,
        None => return Ok(None),
    };
    let ty = Ty::read(alloc, &bank, place)?;
    Ok(Some(ty))
}

/// The type that a datatype's records hold, as it is written.
///
/// # Errors
/// In this order: the first unknown name in the text; more than 4,096 nodes.
pub fn infer_datatype<P: Drop>(
    alloc: Global,
    context: &Context<P>,
    written: &TypeExp,
) -> Result<Ty, InferFault>
    ensures { IsDatatypeFor context.now (type_tree written.now) result }
{
    if let Some(span) = unknown_in_type(context, written)? {
        return Err(InferFault::Unknown { span });
    }
    match type_as_written(alloc, context, written)? {
        Some(ty) => match ty.room_left(4096) {
            Some(_) => Ok(ty),
            None => Err(InferFault::IllTyped),
        },
        None => Err(InferFault::IllTyped),
    }
}
