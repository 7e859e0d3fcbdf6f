//! Who is let in, and attacks on a seat. Each row is what came, ` => `, and what the service hears or why nobody is let
//! in. Parts of what came are separated by ` | `.
use crate::sample::two_users;
use nesl_keys::sign_in::{SignIn, TurnedAway, Visitor, admit};
use std::alloc::{AllocError, Global};
use std::test::Fail;

/// First lines where users are known by their word: the service hears each as it is.
const BY_WORD: &str = "user ann => user ann
user ann 0123456789abcdef0123456789abcdef => user ann 0123456789abcdef0123456789abcdef
1 + 1; => 1 + 1;
 => ";

/// First lines where users are known by their keys. Ann's key is let in for Ann alone, and only as it is written.
const BY_KEY: &str = "user ann 0123456789abcdef0123456789abcdef => user ann
user bob fedcba9876543210fedcba9876543210 => user bob
user bob 0123456789abcdef0123456789abcdef => Key
user ann fedcba9876543210fedcba9876543210 => Key
user ann 0123456789abcdef0123456789abcdee => Key
user ann 1123456789abcdef0123456789abcdef => Key
user ann 00000000000000000000000000000000 => Key
user eve 0123456789abcdef0123456789abcdef => Key
user eve 00000000000000000000000000000000 => Key
user an 0123456789abcdef0123456789abcdef => Key
user annn 0123456789abcdef0123456789abcdef => Key
user ann => Line
user ann  => Line
user  => Line
user => Line
 => Line
user ann 0123456789ABCDEF0123456789ABCDEF => Line
user ann 0123456789abcdef0123456789abcdeF => Line
user Ann 0123456789abcdef0123456789abcdef => Line
USER ann 0123456789abcdef0123456789abcdef => Line
user ann 0123456789abcdef0123456789abcde => Line
user ann 0123456789abcdef0123456789abcdef0 => Line
user ann 0123456789abcdef0123456789abcdef  => Line
user ann 0123456789abcdef0123456789abcdef\r => Line
user ann 0123456789abcdef0123456789abcdef\0 => Line
user ann 0123456789abcdef0123456789abcdef user bob => Line
user ann 0123456789abcdef0123456789abcdef fedcba9876543210fedcba9876543210 => Line
user bob ann 0123456789abcdef0123456789abcdef => Line
user ann  0123456789abcdef0123456789abcdef => Line
user  ann 0123456789abcdef0123456789abcdef => Line
 user ann 0123456789abcdef0123456789abcdef => Line
user\tann 0123456789abcdef0123456789abcdef => Line
user ann\t0123456789abcdef0123456789abcdef => Line
user ann\0 0123456789abcdef0123456789abcdef => Line
user ann\r 0123456789abcdef0123456789abcdef => Line
user ann,bob 0123456789abcdef0123456789abcdef => Line
user 0123456789abcdef0123456789abcdef => Line
user  0123456789abcdef0123456789abcdef => Line
ann 0123456789abcdef0123456789abcdef => Line
user ann.0123456789abcdef0123456789abcdef => Line
user ann 0x23456789abcdef0123456789abcdef00 => Line
user ann 1bfdb43545f0dcd7514ca7733399e3235fd99e99b50c08404b05f47d5600e983 => Line
user ann 00112233445566778899aabbccddeeff 0123456789abcdef0123456789abcdef => Line
user ann 00112233445566778899aabbccddeeff => Key
user # 0123456789abcdef0123456789abcdef => Line
user ann \u{0430}123456789abcdef0123456789abcdef => Line
user \u{0430}nn 0123456789abcdef0123456789abcdef => Line";

/// The first line, and the values of the header that names the user.
const BY_HEADER: &str = "user ann | ann => user ann
user ann => Header
user ann |  => Header
user ann | ann | ann => Header
user ann | ann | bob => Header
user ann | bob | ann => Header
user bob | ann => Other
user ann | ann, bob => Header
user ann | bob, ann => Header
user ann | ann,ann => Header
user ann | Ann => Header
user Ann | Ann => Header
user ann |  ann => Header
user ann | ann\t => Header
user ann | \"ann\" => Header
user ann | ann\0 => Header
user ann | ann\r => Header
user ann | %61nn => Header
user ann | ann@example.org => Header
user ann | user ann => Header
user ann 0123456789abcdef0123456789abcdef | ann => Other
user ann  | ann => Other
user ann\r | ann => Other
user  ann | ann => Other
user\tann | ann => Other
USER ann | ann => Other
 | ann => Other
1 + 1; | ann => Other
user | ann => Other
user abcdefghijklmnopq | abcdefghijklmnopq => Header
user abcdefghijklmnop | abcdefghijklmnop => user abcdefghijklmnop
user 1a | 1a => Header";

/// The first line, and the query of the address.
const BY_ADDRESS: &str = "user ann | user=ann => user ann
user ann |  => Address
user ann | user= => Address
user ann | user => Address
user ann | name=ann => Address
user bob | user=ann => Other
user ann | user=ann&user=ann => Address
user ann | user=ann&user=bob => Address
user ann | user=bob&user=ann => Address
user ann | user=ann& => Address
user ann | &user=ann => Address
user ann | x=1&user=ann => Address
user ann | user=ann&x=1 => Address
user ann | user=ann;user=bob => Address
user ann | x;user=bob&user=ann => Address
user ann | us%65r=bob&user=ann => Address
user ann | us%65r=ann => Address
user ann | user=%61nn => Address
user ann | user=ann%00 => Address
user ann | user=ann%20 => Address
user ann | user=ann+ => Address
user ann | user=+ann => Address
user ann | user[]=ann => Address
user ann | USER=ann => Address
user ann | user=Ann => Address
user ann | user=ann#x => Address
user ann | user=ann/ => Address
user ann | ?user=ann => Address
user ann | user=ann?user=bob => Address
user ann | user =ann => Address
user ann |  user=ann => Address
user ann | user=ann\t => Address
user ann\r | user=ann => Other
user ann 0123456789abcdef0123456789abcdef | user=ann => Other
 | user=ann => Other";

// Returns the word for why nobody is let in.
fn word_of(fault: TurnedAway) -> &'static str {
    match fault {
        TurnedAway::Line => "Line",
        TurnedAway::Key => "Key",
        TurnedAway::Header => "Header",
        TurnedAway::Address => "Address",
        TurnedAway::Other => "Other",
    }
}

// Returns what the service hears, or the word for why nobody is let in.
fn heard_at<'v>(sign_in: SignIn<'_>, visitor: Visitor<'v>) -> &'v [u8] {
    match admit(sign_in, visitor) {
        Ok(heard) => heard,
        Err(fault) => word_of(fault).as_bytes(),
    }
}

// Whether a row holds. Its parts after the first line are the values of the header, or the query.
fn holds(alloc: Global, sign_in: SignIn<'_>, row: &str) -> Result<bool, AllocError> {
    let (came, wanted) = row.rsplit_once(" => ").unwrap_or((row, ""));
    let mut parts = Vec::new(alloc);
    for part in came.split(" | ") {
        parts.push(part.as_bytes())?;
    }
    let first_line = parts.as_slice().get(0).copied().unwrap_or(&[]);
    let visitor = Visitor {
        first_line,
        headers: parts.as_slice().get(1..).unwrap_or(&[]),
        query: parts.as_slice().get(1).copied().unwrap_or(&[]),
    };
    Ok(heard_at(sign_in, visitor) == wanted.as_bytes())
}

// Returns the first row that doesn't hold.
fn first_wrong<'r>(
    alloc: Global,
    sign_in: SignIn<'_>,
    rows: &'r str,
) -> Result<&'r str, AllocError> {
    for row in rows.split('\n') {
        if !holds(alloc, sign_in, row)? {
            return Ok(row);
        }
    }
    Ok("none")
}

#[test]
fn words_alone_are_heard_as_they_are(rt: HostRuntime) -> Result<(), Fail> {
    let wrong = first_wrong(rt.alloc(), SignIn::Word, BY_WORD)?;
    assert_eq!(rt; wrong, "none");
    Ok(())
}

#[test]
fn keys_open_the_seats_of_their_users_alone(rt: HostRuntime) -> Result<(), Fail> {
    let keys = two_users(rt.alloc())?;
    let wrong = first_wrong(rt.alloc(), SignIn::Keys(&keys), BY_KEY)?;
    assert_eq!(rt; wrong, "none");
    Ok(())
}

#[test]
fn one_header_names_the_user(rt: HostRuntime) -> Result<(), Fail> {
    let wrong = first_wrong(rt.alloc(), SignIn::Header, BY_HEADER)?;
    assert_eq!(rt; wrong, "none");
    Ok(())
}

#[test]
fn the_whole_query_names_the_user(rt: HostRuntime) -> Result<(), Fail> {
    let wrong = first_wrong(rt.alloc(), SignIn::Address, BY_ADDRESS)?;
    assert_eq!(rt; wrong, "none");
    Ok(())
}

// Makes a first line whose key, or whose name, has very many bytes.
fn long_line(alloc: Global, front: &str, byte: u8, back: &str) -> Result<Vec<u8>, AllocError> {
    let mut line = front.as_bytes().to_vec(alloc)?;
    for _ in 0..1_000_000 {
        line.push(byte)?;
    }
    line.extend_from_slice(back.as_bytes())?;
    Ok(line)
}

#[test]
fn long_lines_are_refused(rt: HostRuntime) -> Result<(), Fail> {
    let keys = two_users(rt.alloc())?;
    let long_key = long_line(rt.alloc(), "user ann 0123456789abcdef", b'0', "")?;
    let long_name = long_line(
        rt.alloc(),
        "user ",
        b'a',
        " 0123456789abcdef0123456789abcdef",
    )?;
    let many_spaces = long_line(
        rt.alloc(),
        "user ann",
        b' ',
        "0123456789abcdef0123456789abcdef",
    )?;
    for line in [&long_key, &long_name, &many_spaces] {
        let visitor = Visitor {
            first_line: line.as_slice(),
            headers: &[],
            query: &[],
        };
        assert_eq!(rt; heard_at(SignIn::Keys(&keys), visitor), b"Line".as_slice());
    }
    Ok(())
}
