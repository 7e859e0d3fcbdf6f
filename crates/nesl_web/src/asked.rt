//! What a request for a session says of its user.
ghost use Rattle.std.specs.Prelude.{◌≡◌, [], None, IfOk, map, option_map};
ghost use Rattle.nesl_web.specs.Asked.{Takes, query_in, query_of};
ghost use Rattle.nesl_web.specs.Route.{values_in};

use crate::access::values_of;
use crate::route::MOST_FIELDS;
use httparse::Status;
use httparse::spans::{EMPTY_HEADER_SPAN, parse_request};
use std::alloc::{AllocError, Global};

/// The name of the subprotocol with hints.
pub const HINTS: &[u8] = b"pazkindu.hints";

/// What is sent on a WebSocket besides answers.
#[derive(Clone, Copy, PartialEq, Eq, Debug)]
pub enum Subprotocol {
    /// Nothing.
    Plain,
    /// After a fault its hint, if it has one.
    Hints,
}

/// A request for a session that was accepted.
#[derive(Drop)]
pub struct Asked {
    /// The head of the request, and any bytes that came with it.
    pub head: Vec<u8>,
    /// The bytes that followed the head.
    pub first: Vec<u8>,
    pub subprotocol: Subprotocol,
}

/// Returns the subprotocol that a head asks for. A client names those that it knows in any number of fields, with
/// commas between.
pub(crate) fn subprotocol_of(alloc: Global, head: &[u8]) -> Result<Subprotocol, AllocError> {
    let values = values_in(alloc, head, b"Sec-WebSocket-Protocol")?;
    if values.iter().any(|value| names_hints(*value)) {
        Ok(Subprotocol::Hints)
    } else {
        Ok(Subprotocol::Plain)
    }
}

// Whether one of the names between commas is that of the subprotocol with hints.
fn names_hints(value: &[u8]) -> bool {
    value
        .split(|byte| *byte == b',')
        .any(|name| name.trim_ascii() == HINTS)
}

/// Returns the values of all fields of a head with this name, in order.
pub fn values_in<'b>(
    alloc: Global,
    head: &'b [u8],
    name: &[u8],
) -> Result<Vec<&'b [u8]>, AllocError>
    ensures { IfOk result (λ values. Takes head.now (values_in name.now) [] (map (λ value. value.now) values.items)) }
{
    let mut fields = [EMPTY_HEADER_SPAN; MOST_FIELDS];
    match parse_request(head, &mut fields) {
        Ok(Status::Complete(request)) => {
            values_of(alloc, head, &fields[..request.headers], name)
        }
        Ok(Status::Partial) => Ok(Vec::new(alloc)),
        Err(_) => Ok(Vec::new(alloc)),
    }
}

/// Returns what follows the first question mark of the target of a head, if there is one.
pub fn query_of(head: &[u8]) -> Option<&[u8]>
    ensures { Takes head.now query_of None (option_map (λ query. query.now) result) }
{
    let mut fields = [EMPTY_HEADER_SPAN; MOST_FIELDS];
    match parse_request(head, &mut fields) {
        Ok(Status::Complete(request)) => query_in(request.path.of(head)),
        Ok(Status::Partial) => None,
        Err(_) => None,
    }
}

// Returns what follows the first question mark.
fn query_in(target: &[u8]) -> Option<&[u8]>
    ensures { option_map (λ query. query.now) result ≡ query_in target.now }
{
    for (place, byte) in target.iter().enumerate() {
        if *byte == b'?' {
            return Some(&target[place + 1..]);
        }
    }
    None
}
