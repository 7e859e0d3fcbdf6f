//! Decides how a request is answered.
ghost use Rattle.std.specs.Prelude.{◌≡◌, map, true, IfOk};
ghost use Rattle.httparse.specs.Spans.{IsRequestOf, IsRequestWithin};
ghost use Rattle.nesl_web.specs.Route.{HasHead, LetsIn};

use crate::access::{is_allowed, values_of};
use crate::answer::{Content, Refusal};
use httparse::spans::{EMPTY_HEADER_SPAN, HeaderSpan, RequestSpans, parse_request};
use httparse::{Error, Status};
use nesl_web_files::{File, Lasting, file_at};
use std::alloc::{AllocError, Global};
use websocket::handshake::server::check_request;

/// The most fields of a head.
pub(crate) const MOST_FIELDS: usize = 64;

/// What is served to browsers.
#[derive(Clone, Copy)]
pub struct PageTerms<'x> {
    /// Known names of the host, besides those by which each machine calls itself.
    pub names: &'x [&'x [u8]],
    /// How long its sessions last.
    pub lasting: Lasting,
    /// The lessons of a teacher in place of ours, in JSON.
    pub lessons: Option<&'x str>,
}

/// How a request is answered.
#[derive(Clone, Copy)]
pub enum Route<'x> {
    /// With a file of the page.
    Page(File<'x>),
    /// With the supported methods.
    Methods,
    /// With a switch to a WebSocket.
    Session {
        /// The key that accepts the request.
        accept_key: [u8; 28],
        /// The length of the head in bytes. More bytes may have followed it.
        head_bytes: usize,
    },
    Refused(Refusal),
}

/// Whether the head is complete. Fails with the reason if it is refused.
#[tactic(auto, using(crate::proofs::RouteLemmas::has_head))]
pub fn is_whole(bytes: &[u8]) -> Result<bool, Refusal>
    ensures { IfOk result (λ whole. whole ≡ true → HasHead bytes.now) }
{
    let mut fields = [EMPTY_HEADER_SPAN; MOST_FIELDS];
    match parse_request(bytes, &mut fields) {
        Ok(Status::Complete(_)) => Ok(true),
        Ok(Status::Partial) => Ok(false),
        Err(error) => Err(refusal_of(error)),
    }
}

/// Returns the answer to the request with this head.
pub fn route_for<'x>(
    alloc: Global,
    terms: &PageTerms<'x>,
    bytes: &[u8],
) -> Result<Route<'x>, AllocError>
    ensures { IfOk result (LetsIn (map (λ name. name.now) terms.now.names.now) bytes.now) }
{
    let mut fields = [EMPTY_HEADER_SPAN; MOST_FIELDS];
    match parse_request(bytes, &mut fields) {
        Ok(Status::Complete(request)) => route_of(alloc, terms, bytes, &request, &fields),
        Ok(Status::Partial) => Ok(Route::Refused(Refusal::Unreadable)),
        Err(error) => Ok(Route::Refused(refusal_of(error))),
    }
}

fn refusal_of(error: Error) -> Refusal {
    match error {
        Error::TooManyHeaders => Refusal::Large,
        _ => Refusal::Unreadable,
    }
}

// Returns the answer to the request with this parsed head.
fn route_of<'x>(
    alloc: Global,
    terms: &PageTerms<'x>,
    bytes: &[u8],
    request: &RequestSpans,
    fields: &[HeaderSpan],
) -> Result<Route<'x>, AllocError>
    requires within { IsRequestWithin bytes.now fields.now request.now }
    requires read { IsRequestOf bytes.now fields.now request.now }
    ensures { IfOk result (LetsIn (map (λ name. name.now) terms.now.names.now) bytes.now) }
{
    let all = &fields[..request.headers];
    let hosts = values_of(alloc, bytes, all, b"Host")?;
    let origins = values_of(alloc, bytes, all, b"Origin")?;
    if !is_allowed(terms.names, hosts.as_slice(), origins.as_slice()) {
        return Ok(Route::Refused(Refusal::Forbidden));
    }
    let keys = values_of(alloc, bytes, all, b"Sec-WebSocket-Key")?;
    let route = route_allowed(terms, bytes, request, fields);
    match route {
        // A request with two keys is refused.
        Route::Session { .. } if keys.len() > 1 => Ok(Route::Refused(Refusal::Unreadable)),
        route => Ok(route),
    }
}

/// Returns whether the answer to a request has its text. HEAD asks for the head alone.
pub fn content_for(bytes: &[u8]) -> Content {
    let mut fields = [EMPTY_HEADER_SPAN; MOST_FIELDS];
    match parse_request(bytes, &mut fields) {
        Ok(Status::Complete(request)) if Method::of(request.method.of(bytes)) == Method::Head => {
            Content::LeftOut
        }
        _ => Content::Sent,
    }
}

// The method of a request.
#[derive(Clone, Copy, PartialEq, Eq, Debug)]
enum Method {
    Get,
    Head,
    Options,
    Other,
}

impl Method {
    fn of(name: &[u8]) -> Method {
        if name == b"GET".as_slice() {
            Method::Get
        } else if name == b"HEAD".as_slice() {
            Method::Head
        } else if name == b"OPTIONS".as_slice() {
            Method::Options
        } else {
            Method::Other
        }
    }
}

// Returns the answer to an allowed request.
fn route_allowed<'x>(
    terms: &PageTerms<'x>,
    bytes: &[u8],
    request: &RequestSpans,
    fields: &[HeaderSpan],
) -> Route<'x>
    requires { IsRequestWithin bytes.now fields.now request.now }
{
    let method = Method::of(request.method.of(bytes));
    let Ok(path) = str::from_utf8(without_query(request.path.of(bytes))) else {
        return Route::Refused(Refusal::NotFound);
    };
    let file = file_at(path, terms.lasting, terms.lessons);
    let is_file = file.is_some();
    let is_found = is_file || path == "/session";
    match method {
        // A star means all paths.
        Method::Options if is_found || path == "*" => return Route::Methods,
        _ if !is_found => return Route::Refused(Refusal::NotFound),
        Method::Options | Method::Other => return Route::Refused(Refusal::Method),
        Method::Get | Method::Head => {}
    }
    let Some(file) = file else {
        return session(bytes, request, fields);
    };
    Route::Page(file)
}

// Returns the answer to a request for a WebSocket.
fn session<'x>(bytes: &[u8], request: &RequestSpans, fields: &[HeaderSpan]) -> Route<'x>
    requires { IsRequestWithin bytes.now fields.now request.now }
{
    match check_request(bytes, request, fields) {
        Ok(accept_key) => Route::Session {
            accept_key,
            head_bytes: request.len,
        },
        Err(_) => Route::Refused(Refusal::Unreadable),
    }
}

// Returns the part of the target before a question mark.
fn without_query(target: &[u8]) -> &[u8] {
    match target.iter().position(|byte| *byte == b'?') {
        Some(place) => &target[..place],
        None => target,
    }
}
