//! Headers of whole requests, as a service sees them.
use httparse::Status;
use httparse::spans::{EMPTY_HEADER_SPAN, parse_request};
use nesl_keys::sign_in::{SignIn, Visitor, admit};
use nesl_web::access::values_of;
use std::alloc::{AllocError, Global};
use std::test::Fail;

/// The headers of requests whose first line is `user ann`, and what the service hears. A `~` is the end of a line.
const HEADERS: &str = "X-Remote-User: ann => heard
X-Remote-User:ann => heard
X-Remote-User: \t ann \t  => heard
x-remote-user: ann => heard
X-REMOTE-USER: ann => heard
Host: a~X-Remote-User: ann~Cookie: user=bob => heard
Host: a => turned away
X-Remote-User: => turned away
X-Remote-User: bob => turned away
X-Remote-User: ann~X-Remote-User: ann => turned away
X-Remote-User: ann~x-remote-user: bob => turned away
x-remote-user: bob~X-Remote-User: ann => turned away
X-Remote-User: ann~Host: a~X-REMOTE-USER:  => turned away
X-Remote-User: ann, bob => turned away
X-Remote-User: ann,ann => turned away
X_Remote_User: ann => turned away
X-Remote-Users: ann => turned away
X-Remote-Use: ann => turned away
Cookie: X-Remote-User: ann => turned away
X-Remote-User : ann => no request
 X-Remote-User: ann => no request
X-Remote-User: ann~ bob => no request
X-Remote-User: ann\0 => no request
X-Remote-User: ann\rbob => no request
X-Remote-User ann => no request";

// Writes the head of a request with these headers.
fn request_with(alloc: Global, headers: &str) -> Result<String, AllocError> {
    let mut head = String::from_str(alloc, "GET /session HTTP/1.1\r\n")?;
    for line in headers.split('~') {
        head.push_str(line)?;
        head.push_str("\r\n")?;
    }
    head.push_str("\r\n")?;
    Ok(head)
}

// Returns what becomes of the connection.
fn told_of(alloc: Global, head: &[u8]) -> Result<&'static str, AllocError> {
    let mut fields = [EMPTY_HEADER_SPAN; 8];
    let Ok(Status::Complete(request)) = parse_request(head, &mut fields) else {
        return Ok("no request");
    };
    let values = values_of(alloc, head, &fields[..request.headers], b"X-Remote-User")?;
    let visitor = Visitor {
        first_line: b"user ann",
        headers: values.as_slice(),
        query: &[],
    };
    match admit(SignIn::Header, visitor) {
        Ok(_) => Ok("heard"),
        Err(_) => Ok("turned away"),
    }
}

// Returns the first row that doesn't hold.
fn first_wrong(alloc: Global, rows: &str) -> Result<&str, AllocError> {
    for row in rows.split('\n') {
        let (headers, wanted) = row.rsplit_once(" => ").unwrap_or((row, ""));
        let head = request_with(alloc, headers)?;
        if told_of(alloc, head.as_bytes())? != wanted {
            return Ok(row);
        }
    }
    Ok("none")
}

#[test]
fn headers_are_not_smuggled(rt: HostRuntime) -> Result<(), Fail> {
    let wrong = first_wrong(rt.alloc(), HEADERS)?;
    assert_eq!(rt; wrong, "none");
    Ok(())
}
