//! The number of elements of a name, and of all names but one.

ghost use Rattle.std.specs.Prelude.{◌≡◌, ◌+◌, ◌<◌, ◌^◌, MatchOption};
ghost use Rattle.nesl_types_shared.specs.Term.{nodes};
ghost use Rattle.nesl_session_bindings.specs.Others.{other_elements};
ghost use Rattle.nesl_session_bindings.specs.Meanings.{elements_in};
ghost use Rattle.nesl_session_bindings.specs.Stored.{AreKept, PayloadFits, bindings_of, meaning_of};

use crate::nodes;
use nesl_eval_top_level::{Env, Payload};
use nesl_types::{Top, Ty};

/// What is left of `room`, in nodes, after the elements of a name's meaning; `None` if they are more.
fn room_left(top: &Top, payload: &Payload, room: u64) -> Option<u64>
    requires { PayloadFits top.now payload.now }
    ensures { MatchOption result (room < elements_in (meaning_of top.now payload.now))
        (λ left. left + elements_in (meaning_of top.now payload.now) ≡ room) }
{
    match payload {
        Payload::Variable(value) => room.checked_sub(value.nodes()),
        Payload::Function { body, .. } => nodes::left_after(body, room),
        Payload::Datatype => match top {
            Top::Datatype(_, content) => content.room_left(room),
            Top::Variable(_) => unreachable!(),
            Top::Function(_) => unreachable!(),
        },
    }
}

/// The number of nodes of the type.
pub fn nodes_of(ty: &Ty) -> u64
    requires { nodes ty.now < 2 ^ 64 }
    ensures { result ≡ nodes ty.now }
{
    match ty.room_left(u64::MAX) {
        Some(left) => u64::MAX - left,
        None => unreachable!(),
    }
}

/// The number of elements of all names but this one, where `elements` is that of all names.
pub fn other_elements(env: &Env, elements: u64, name: &[u8]) -> u64
    requires { AreKept env.now elements }
    ensures { result ≡ other_elements name.now (bindings_of env.now) }
{
    match env.get(name) {
        None => elements,
        Some((top, payload)) => match room_left(top, payload, elements) {
            Some(left) => left,
            None => unreachable!(),
        },
    }
}
