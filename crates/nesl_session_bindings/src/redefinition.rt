//! Definitions that are refused because of the names that are bound already.

ghost use Rattle.std.specs.Prelude.{◌≡◌, ◌↔◌, ◌&&◌, IsTrue, Some, not, false, slice_get};
ghost use Rattle.std.specs.Option.{option_map, option_map_or};
ghost use Rattle.std.specs.Str.{bytes_eq};
ghost use Rattle.nesl_types.specs.Names.{found};
ghost use Rattle.nesl_types.specs.declared.bindings.Top.{Top};
ghost use Rattle.nesl_eval_top_level.specs.declared.env.Payload.{Payload};
ghost use Rattle.nesl_eval_top_level.specs.Stored.{environment, top_of};
ghost use Rattle.nesl_eval_sound.specs.Refers.{is_referred, top_refers};
ghost use Rattle.nesl_eval_sound.specs.Lines.{datatypes, is_type};
ghost use Rattle.nesl_session_bindings.specs.Known.{meaning_in};
ghost use Rattle.nesl_session_bindings.specs.Redefinition.{ChangesType, IsRetyped, is_in_use, is_taken};
ghost use Rattle.nesl_session_bindings.specs.Stored.{AllFit, PayloadFits, bindings_of, kind_of, meaning_of};

use crate::kind::Kind;
use nesl_builtins::named;
use nesl_eval_sound::refers_to;
use nesl_eval_top_level::{Env, Payload};
use nesl_types::Top;

/// Whether the name would become a variable or a function of another type.
fn changes_type(top: &Top, kind: Kind<'_>) -> bool
    ensures { (payload : Payload) → PayloadFits top.now payload
        → (IsTrue result ↔ ChangesType (Some (meaning_of top.now payload)) (kind_of kind.entry)) }
{
    match top {
        Top::Variable(old) => match kind {
            Kind::Variable(new) => !old.same(new),
            Kind::Function(_) => true,
            Kind::Datatype => false,
        },
        Top::Function(old) => match kind {
            Kind::Variable(_) => true,
            Kind::Function(new) => !old.same(new),
            Kind::Datatype => false,
        },
        Top::Datatype(_, _) => false,
    }
}

/// Whether the payload is a function whose body refers to the name.
fn payload_refers(name: &[u8], payload: &Payload) -> bool
    ensures { (top : Top) → result ≡ top_refers name.now (top_of top payload.now) }
{
    match payload {
        Payload::Variable(_) => false,
        Payload::Function { pattern, body } => refers_to(name, pattern, body),
        Payload::Datatype => false,
    }
}

/// Whether another name is at the place, and is a function whose body refers to this one.
fn refers_at(env: &Env, place: usize, name: &[u8]) -> bool
    ensures { result ≡ option_map_or (λ b. not (bytes_eq b.0 name.now) && top_refers name.now (top_of b.1 b.2))
        (slice_get env.now place) false }
{
    match env.at(place) {
        None => false,
        Some((other, _, payload)) => other != name && payload_refers(name, payload),
    }
}

/// Whether the body of another function refers to the name.
fn is_referred(env: &Env, name: &[u8]) -> bool
    ensures { result ≡ is_referred name.now (environment env.now) }
{
    for place in 0..env.len() {
        if refers_at(env, place, name) {
            return true;
        }
    }
    false
}

/// Whether the type of the name would change, though the body of another function refers to it. `there` is what the
/// name means now. Bodies are searched last.
pub fn is_retyped(env: &Env, name: &[u8], there: Option<(&Top, &Payload)>, kind: Kind<'_>) -> bool
    requires fit { AllFit env.now }
    requires stands { option_map (λ b. (b.0.now, b.1.now)) there ≡ found name.now env.now }
    ensures { IsTrue result ↔ IsRetyped (bindings_of env.now) name.now (kind_of kind.entry) }
{
    match there {
        None => false,
        Some((top, _)) => changes_type(top, kind) && is_referred(env, name),
    }
}

/// Whether the name is a datatype now, or is bound and would become a datatype.
fn is_in_use(_env: &Env, _name: &[u8], there: Option<(&Top, &Payload)>, kind: Kind<'_>) -> bool
    requires fit { AllFit _env.now }
    requires stands { option_map (λ b. (b.0.now, b.1.now)) there ≡ found _name.now _env.now }
    ensures { result ≡ is_in_use (meaning_in (bindings_of _env.now) _name.now) (kind_of kind.entry) }
{
    match there {
        None => false,
        Some((top, _)) => match top {
            Top::Variable(_) => kind.is_datatype(),
            Top::Function(_) => kind.is_datatype(),
            Top::Datatype(_, _) => true,
        },
    }
}

/// Whether the name may not be defined so: it is built in, it is in use, or it is `it` and would be no variable.
pub fn is_taken(env: &Env, name: &[u8], there: Option<(&Top, &Payload)>, kind: Kind<'_>) -> bool
    requires fit { AllFit env.now }
    requires stands { option_map (λ b. (b.0.now, b.1.now)) there ≡ found name.now env.now }
    ensures { result ≡ is_taken (bindings_of env.now) name.now (kind_of kind.entry) }
{
    named(name).is_some()
        || is_in_use(env, name, there, kind)
        || (name == b"it".as_slice() && kind.is_no_variable())
}

/// Whether the name at the place is a datatype.
fn is_datatype_at(env: &Env, place: usize) -> bool
    ensures { result ≡ option_map_or (λ b. is_type b.1) (slice_get env.now place) false }
{
    match env.at(place) {
        None => false,
        Some((_, top, _)) => match top {
            Top::Variable(_) => false,
            Top::Function(_) => false,
            Top::Datatype(_, _) => true,
        },
    }
}

/// How many datatypes there are.
pub fn datatypes(env: &Env) -> u64
    ensures { result ≡ datatypes env.now }
{
    let mut count = 0;
    for place in 0..env.len() {
        if is_datatype_at(env, place) {
            count += 1;
        }
    }
    count
}
