//! The equations of a signature.

ghost use Rattle.std.specs.Prelude.{◌≡◌, ◌<◌, ◌≤◌, ℕ, List, All, map, option_map, IfOk, OnOk};
ghost use Rattle.nesl_types_shared.specs.Term.{Term, nodes};
ghost use Rattle.nesl_types_shared.specs.Numbering.{IsBelow};
ghost use Rattle.nesl_types_shared.specs.Substitution.{substitute};
ghost use Rattle.nesl_unify.specs.Bounds.{IsBounded};
ghost use Rattle.nesl_unify.specs.Flat.{flat_type};
ghost use Rattle.nesl_syntax_tree.specs.Views.{type_tree, member_tree, signature_tree};
ghost use Rattle.nesl_infer_rules.specs.Steps.{count, Adds, AddsNames, AreLocalsBelow, scope_at};
ghost use Rattle.nesl_infer_rules.specs.Signatures.{FreeNames, put_in};
ghost use Rattle.nesl_infer_rules.specs.Typing.{IsInItsClass, IsSigned, FitsSignature, class_of, name_in_signature};
ghost use Rattle.nesl_infer_rules.specs.Typing.{signed};
ghost use Rattle.nesl_infer_names.specs.Names.{datatype_in};

use crate::locals::Locals;
use crate::state::{Key, Local, State};
use nesl_syntax_tree::tree as syntax;
use nesl_syntax_tree::tree::{Member, Signature, TypeExp, TypeNode};
use nesl_types::{Class, Context, Top};
use nesl_unify::Flat;
use std::alloc::AllocError;

/// Adds a variable for each name of a written type.
fn name_types<'a>(
    state: &mut State,
    names: &mut Locals<'a>,
    written: &'a TypeExp,
) -> Result<(), AllocError>
    ensures { OnOk result (AddsNames state.old state.new names.old names.new
        (λ s of ns. FreeNames (type_tree written.now) ns)) }
{
    match &written.node {
        TypeNode::Int => Ok(()),
        TypeNode::Bool => Ok(()),
        TypeNode::Char => Ok(()),
        TypeNode::Name { name, .. } => {
            let variable = state.add_any()?;
            names.push(Local {
                key: Key::Name(name.as_slice()),
                variable,
            })?;
            Ok(())
        }
        TypeNode::Sequence(item) => {
            name_types(state, names, item)?;
            Ok(())
        }
        TypeNode::Pair {
            left: first,
            right: second,
        } => {
            name_types(state, names, first)?;
            name_types(state, names, second)?;
            Ok(())
        }
    }
}

/// The tag of a datatype.
fn tag_of<P: Drop>(context: &Context<P>, name: &[u8]) -> Option<u64>
    ensures { result ≡ option_map (λ d. d.0) (datatype_in context.now name.now) }
{
    match context.get(name) {
        Some((Top::Datatype(tag, _), _)) => Some(*tag),
        Some((Top::Variable(_), _)) => None,
        Some((Top::Function(_), _)) => None,
        None => None,
    }
}

/// What a name means: its datatype, else its variable; `int` where it has none.
fn name_type<P: Drop>(context: &Context<P>, names: &Locals<'_>, name: &[u8]) -> Flat
    ensures is { (s : ℕ → Term) →
        substitute s (flat_type result)
        ≡ name_in_signature (datatype_in context.now name.now) (put_in (scope_at s names.now) name.now) }
    ensures below { (n : ℕ) → AreLocalsBelow n names.now → IsBelow n (flat_type result) }
    ensures small { (s : ℕ → Term) → IsBounded s → nodes (substitute s (flat_type result)) ≤ 4096 }
{
    match tag_of(context, name) {
        Some(tag) => Flat::Named(tag),
        None => match names.look_up(name) {
            Some(variable) => Flat::Var(variable),
            None => Flat::Int,
        },
    }
}

/// Adds that `target` is the type that is written, where each name that is no datatype stands for its variable.
fn constrain_written<P: Drop>(
    state: &mut State,
    context: &Context<P>,
    names: &Locals<'_>,
    written: &TypeExp,
    target: u64,
) -> Result<(), AllocError>
    requires target { target < count state.old }
    requires names { AreLocalsBelow (count state.old) names.now }
    ensures { OnOk result
        (Adds state.old state.new
        (λ s of. s target
        ≡ signed (datatype_in context.now) (put_in (scope_at s names.now)) (type_tree written.now))) }
{
    match &written.node {
        TypeNode::Int => {
            state.equate_flat(target, Flat::Int)?;
            Ok(())
        }
        TypeNode::Bool => {
            state.equate_flat(target, Flat::Bool)?;
            Ok(())
        }
        TypeNode::Char => {
            state.equate_flat(target, Flat::Char)?;
            Ok(())
        }
        TypeNode::Name { name, .. } => {
            state.equate_flat(target, name_type(context, names, name.as_slice()))?;
            Ok(())
        }
        TypeNode::Sequence(item) => {
            let inner = state.add_any()?;
            constrain_written(state, context, names, item, inner)?;
            state.equate_sequence(target, inner)?;
            Ok(())
        }
        TypeNode::Pair { left, right } => {
            let first = state.add_any()?;
            let second = state.add_any()?;
            constrain_written(state, context, names, left, first)?;
            constrain_written(state, context, names, right, second)?;
            state.equate_pair(target, first, second)?;
            Ok(())
        }
    }
}

/// The class of types that a written class is.
fn class_of(class: syntax::Class) -> Class
    ensures { result ≡ class_of class }
{
    match class {
        syntax::Class::Any => Class::Any,
        syntax::Class::Ordinal => Class::Ordinal,
        syntax::Class::Number => Class::Number,
        syntax::Class::Logical => Class::Logical,
    }
}

/// Adds that what a name means is in a class.
fn constrain_member<P: Drop>(
    state: &mut State,
    context: &Context<P>,
    names: &Locals<'_>,
    member: &Member,
) -> Result<(), AllocError>
    requires names { AreLocalsBelow (count state.old) names.now }
    ensures { OnOk result (Adds state.old state.new
        (λ s of. IsInItsClass (datatype_in context.now) of (put_in (scope_at s names.now)) (member_tree member.now))) }
{
    let inside = state.fresh(class_of(member.class))?;
    state.equate_flat(inside, name_type(context, names, member.name.as_slice()))?;
    Ok(())
}

/// Adds that what each name means is in its class.
fn constrain_members<P: Drop>(
    state: &mut State,
    context: &Context<P>,
    names: &Locals<'_>,
    members: &[Member],
) -> Result<(), AllocError>
    requires names { AreLocalsBelow (count state.old) names.now }
    ensures { OnOk result (Adds state.old state.new
        (λ s of. All (IsInItsClass (datatype_in context.now) of (put_in (scope_at s names.now)))
        (map member_tree members.now))) }
{
    for member in members {
        constrain_member(state, context, names, member)?;
    }
    Ok(())
}

/// Adds what a signature says of what a function takes and gives.
fn constrain_signed<P: Drop>(
    state: &mut State,
    context: &Context<P>,
    signature: &Signature,
    takes: u64,
    gives: u64,
) -> Result<(), AllocError>
    requires takes { takes < count state.old }
    requires gives { gives < count state.old }
    ensures { OnOk result (Adds state.old state.new (λ s of. (put : List ℕ → Term)
        × FitsSignature (datatype_in context.now) of (signature_tree signature.now) put (s takes) (s gives))) }
{
    let mut names = Locals::new(state.alloc);
    name_types(state, &mut names, &signature.from)?;
    name_types(state, &mut names, &signature.to)?;
    constrain_written(state, context, &names, &signature.from, takes)?;
    constrain_written(state, context, &names, &signature.to, gives)?;
    constrain_members(state, context, &names, signature.members.as_slice())?;
    Ok(())
}

/// Adds what a signature says, where there is one.
pub fn constrain_signature<P: Drop>(
    state: &mut State,
    context: &Context<P>,
    signature: &Option<Signature>,
    takes: u64,
    gives: u64,
) -> Result<(), AllocError>
    requires takes { takes < count state.old }
    requires gives { gives < count state.old }
    ensures { OnOk result (Adds state.old state.new
        (λ s of. IsSigned (datatype_in context.now) of (option_map signature_tree signature.now) (s takes) (s gives))) }
{
    match signature {
        Some(signature) => {
            constrain_signed(state, context, signature, takes, gives)?;
            Ok(())
        }
        None => Ok(()),
    }
}
