//! What is found of a line by its form, if no expression has to be evaluated.
ghost use Rattle.std.specs.Prelude.{◌≡◌, IfOk, option_map};
ghost use Rattle.nesl_syntax_tree.specs.Trees as trees;
ghost use Rattle.nesl_syntax_tree.specs.Views.{tree_of, pattern_tree, signature_tree, type_tree};
ghost use Rattle.nesl_session_bindings.specs.Stored.{bindings_of};
ghost use Rattle.nesl_session_meaning.specs.declared.limits.Limits.{Limits};
ghost use Rattle.nesl_session_meaning.specs.State.{State};
ghost use Rattle.nesl_session_meaning.specs.Finding.{FindsForm};
ghost use Rattle.nesl_session.specs.Found.{finding_of, CanCharge};
ghost use Rattle.nesl_session.specs.Forms.{with_names, IsFunction, IsDatatype, IsVariable};

use crate::forms::finding::{Definition, Finding, Meaning, Shown};
use crate::forms::stops::{Stopped, refused, untyped};
use nesl_reply::Fault;
use nesl_session_bindings::{Bindings, Kind};
use nesl_session_meaning::limits::Limits;
use nesl_syntax_tree::tree::{Exp, Pattern, Signature, TypeExp};
use nesl_types::{Scheme, Ty};
use std::alloc::{AllocError, Global};

/// What is found where a line asks for the type of an expression, in every state with these names.
pub fn find_type(bindings: &Bindings, alloc: Global, exp: Exp) -> Result<Finding, AllocError>
    ensures found { IfOk result (λ f. (limits : Limits) (s : State)
        → FindsForm limits (with_names (bindings_of bindings.now) s) (trees.show_type (tree_of exp)) (finding_of f)) }
    ensures charges { IfOk result (λ f. (s : State) → CanCharge (with_names (bindings_of bindings.now) s) f) }
{
    let known = bindings.infer_exp(alloc, &exp);
    drop(exp);
    match known {
        Ok(ty) => Ok(Finding::Answered(Shown::Type(ty))),
        Err(fault) => untyped(fault).found(),
    }
}

/// A function as a line writes it: its definition without the name.
#[derive(Drop)]
pub struct WrittenFunction {
    /// The pattern that the argument is bound to.
    pub parameter: Pattern,
    pub signature: Option<Signature>,
    pub body: Exp,
}

/// What is found where a function is defined, in every state with these names.
pub fn find_function(
    bindings: &Bindings,
    limits: Limits,
    alloc: Global,
    name: Vec<u8>,
    written: WrittenFunction,
) -> Result<Finding, AllocError>
    ensures found { IfOk result (λ f. (s : State) → FindsForm limits (with_names (bindings_of bindings.now) s)
        (trees.function name.items (pattern_tree written.parameter) (option_map signature_tree written.signature)
        (tree_of written.body))
        (finding_of f)) }
    ensures charges { IfOk result (λ f. (s : State) → CanCharge (with_names (bindings_of bindings.now) s) f) }
{
    let known = function_scheme(bindings, limits, alloc, name.as_slice(), &written);
    let WrittenFunction {
        parameter,
        signature,
        body,
    } = written;
    drop(signature);
    match known {
        Ok(scheme) => {
            let meaning = Meaning::Function(scheme, parameter, body);
            Ok(Finding::Defined(Definition { name, meaning }))
        }
        Err(stopped) => {
            drop(parameter);
            drop(body);
            stopped.found()
        }
    }
}

// The scheme of a function, if the function may be defined.
fn function_scheme(
    bindings: &Bindings,
    limits: Limits,
    alloc: Global,
    name: &[u8],
    written: &WrittenFunction,
) -> Result<Scheme, Stopped>
    ensures { IsFunction limits (bindings_of bindings.now) name.now (pattern_tree written.now.parameter)
        (option_map signature_tree written.now.signature) (tree_of written.now.body) result }
{
    let WrittenFunction {
        parameter,
        signature,
        body,
    } = written;
    let scheme = match bindings.infer_function(alloc, name, parameter, signature, body) {
        Ok(scheme) => scheme,
        Err(fault) => return Err(untyped(fault)),
    };
    match bindings.refusal(name, Kind::Function(&scheme)) {
        Some(refusal) => {
            drop(scheme);
            return Err(refused(refusal));
        }
        None => {}
    }
    if !bindings.fits_function(name, body, limits.elements) {
        drop(scheme);
        return Err(Stopped::Refused(Fault::Elements(0)));
    }
    Ok(scheme)
}

/// What is found where a datatype is defined, in every state with these names.
pub fn find_datatype(
    bindings: &Bindings,
    limits: Limits,
    alloc: Global,
    name: Vec<u8>,
    written: TypeExp,
) -> Result<Finding, AllocError>
    ensures found { IfOk result (λ f. (s : State) → FindsForm limits (with_names (bindings_of bindings.now) s)
        (trees.datatype name.items (type_tree written)) (finding_of f)) }
    ensures charges { IfOk result (λ f. (s : State) → CanCharge (with_names (bindings_of bindings.now) s) f) }
{
    let known = datatype_content(bindings, limits, alloc, name.as_slice(), &written);
    drop(written);
    match known {
        Ok(content) => {
            let meaning = Meaning::Datatype(bindings.next_tag(), content);
            Ok(Finding::Defined(Definition { name, meaning }))
        }
        Err(stopped) => stopped.found(),
    }
}

// The type that a datatype's records hold, if the datatype may be defined.
fn datatype_content(
    bindings: &Bindings,
    limits: Limits,
    alloc: Global,
    name: &[u8],
    written: &TypeExp,
) -> Result<Ty, Stopped>
    ensures { IsDatatype limits (bindings_of bindings.now) name.now (type_tree written.now) result }
{
    let content = match bindings.infer_datatype(alloc, written) {
        Ok(content) => content,
        Err(fault) => return Err(untyped(fault)),
    };
    match bindings.refusal(name, Kind::Datatype) {
        Some(refusal) => {
            drop(content);
            return Err(refused(refusal));
        }
        None => {}
    }
    if !bindings.fits_datatype(name, &content, limits.elements) {
        drop(content);
        return Err(Stopped::Refused(Fault::Elements(0)));
    }
    Ok(content)
}

/// The type of a variable, if the variable may be bound to the value of the expression.
pub fn variable_type(
    bindings: &Bindings,
    alloc: Global,
    name: &[u8],
    exp: &Exp,
) -> Result<Ty, Stopped>
    ensures { IsVariable (bindings_of bindings.now) name.now (tree_of exp.now) result }
{
    let ty = match bindings.infer_exp(alloc, exp) {
        Ok(ty) => ty,
        Err(fault) => return Err(untyped(fault)),
    };
    match bindings.refusal(name, Kind::Variable(&ty)) {
        Some(refusal) => {
            drop(ty);
            Err(refused(refusal))
        }
        None => Ok(ty),
    }
}
