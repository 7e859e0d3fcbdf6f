//! Decides which requests are allowed. A browser also runs pages of strangers, and a stranger may make their own host
//! name resolve to this machine.
ghost use Rattle.std.specs.Prelude.{◌≡◌, ◌↔◌, ◌++◌, ◌≤◌, length, map, bytes_eq, All, IfOk, IsTrue};
ghost use Rattle.std.specs.Char.{is_ascii_digit};
ghost use Rattle.std.specs.List.{list_all, list_any};
ghost use Rattle.httparse.specs.Spans.{IsHeaderWithin, header_bytes};
ghost use Rattle.nesl_web.specs.Access.{IsAllowed, is_called, is_known, is_of, is_port, values_of};

use http1::text::eq_ignore_case;
use httparse::spans::HeaderSpan;
use std::alloc::{AllocError, Global};

/// Returns the values of all fields with this name, in order.
pub fn values_of<'b>(
    alloc: Global,
    head: &'b [u8],
    fields: &[HeaderSpan],
    name: &[u8],
) -> Result<Vec<&'b [u8]>, AllocError>
    requires { All (IsHeaderWithin (length head.now)) fields.now }
    ensures { IfOk result (λ values. map (λ value. value.now) values.items
        ≡ values_of name.now (map (header_bytes head.now) fields.now)) }
{
    let mut values = Vec::new(alloc);
    for field in fields {
        if eq_ignore_case(field.name.of(head), name) {
            values.push(field.value.of(head))?;
        }
    }
    Ok(values)
}

/// Whether a request with these `Host` and `Origin` fields is allowed. `given` are the known names of the host, besides
/// those by which each machine calls itself.
pub fn is_allowed(given: &[&[u8]], hosts: &[&[u8]], origins: &[&[u8]]) -> bool
    ensures { IsTrue result ↔ IsAllowed (map (λ name. name.now) given.now) (map (λ host. host.now) hosts.now)
        (map (λ origin. origin.now) origins.now) }
{
    if hosts.len() != 1 {
        return false;
    }
    let host = hosts[0];
    is_known(given, host) && are_of(host, origins)
}

// Whether a host has one of the known names.
fn is_known(given: &[&[u8]], host: &[u8]) -> bool
    ensures { result ≡ is_known (map (λ name. name.now) given.now) host.now }
{
    let is_own = is_called(host, b"127.0.0.1")
        || is_called(host, b"localhost")
        || is_called(host, b"[::1]");
    is_own || is_called_by_any(given, host)
}

// Whether a host has one of these names.
fn is_called_by_any(names: &[&[u8]], host: &[u8]) -> bool
    ensures { result ≡ list_any (is_called host.now) (map (λ name. name.now) names.now) }
{
    any_calls(names, host)
}

fn any_calls(names: &[&[u8]], host: &[u8]) -> bool
    ensures { result ≡ list_any (λ name. is_called host.now name.now) names.now }
{
    names.iter().any(|name| is_called(host, name))
}

// Whether a host has this name, with or without a port.
fn is_called(host: &[u8], name: &[u8]) -> bool
    ensures { result ≡ is_called host.now name.now }
{
    let length = name.len().min(host.len());
    eq_ignore_case(&host[..length], name) && is_port(&host[length..])
}

// Whether this is empty, or a colon and a port.
fn is_port(rest: &[u8]) -> bool
    ensures { result ≡ is_port rest.now }
{
    rest.is_empty() || (rest[0] == b':' && are_digits(&rest[1..]))
}

fn are_digits(bytes: &[u8]) -> bool
    ensures { result ≡ list_all is_ascii_digit bytes.now }
{
    bytes.iter().all(|byte| byte.is_ascii_digit())
}

// Whether all these origins are of this host and port.
fn are_of(host: &[u8], origins: &[&[u8]]) -> bool
    ensures { result ≡ list_all (λ origin. is_of host.now origin.now) origins.now }
{
    origins.iter().all(|origin| is_of(host, origin))
}

// Whether an origin is of this host and port.
fn is_of(host: &[u8], origin: &[u8]) -> bool
    ensures { result ≡ is_of host.now origin.now }
{
    is_joined(origin, b"http://", host) || is_joined(origin, b"https://", host)
}

// Whether a text is `front` followed by `rest`.
fn is_joined(text: &[u8], front: &[u8], rest: &[u8]) -> bool
    ensures { result ≡ bytes_eq text.now (front.now ++ rest.now) }
{
    match text.strip_prefix(front) {
        Some(found) => found == rest,
        None => false,
    }
}
