//! What a service hears of whole connections. A `~` is an LF. Each row is what came, ` => `, and what is heard.
use crate::sample::two_users;
use nesl_keys::admitted::{Admitted, Door};
use nesl_keys::doors::Doors;
use nesl_keys::keys::Keys;
use nesl_keys::sign_in::{SignIn, TurnedAway};
use std::alloc::{AllocError, Global};
use std::io;
use std::io::{ErrorKind, Read};
use std::test::Fail;

/// Connections where users are known by their keys.
const BY_KEY: &str = "user ann 0123456789abcdef0123456789abcdef~1 + 1;~2; => user ann~1 + 1;~2;
user ann 0123456789abcdef0123456789abcdef\r~1 + 1;\r~ => user ann~1 + 1;\r~
user bob fedcba9876543210fedcba9876543210~ => user bob~
user ann 0123456789abcdef0123456789abcdef~~~ => user ann~~~
user ann 0123456789abcdef0123456789abcdef\r\r~1; => ~
user ann 0123456789abcdef0123456789abcdef => ~
user bob 0123456789abcdef0123456789abcdef~1; => ~
user ann~1; => ~
user ann~user ann 0123456789abcdef0123456789abcdef~ => ~
~user ann 0123456789abcdef0123456789abcdef~ => ~
\r~ => ~
user annabcdefghijklmn 0123456789abcdef0123456789abcdef~1; => ~
user abcdefghijklmnop 0123456789abcdef0123456789abcdef\r~1; => ~
user abcdefghijklmnop 0123456789abcdef0123456789abcdef\r.~1; => ~
user ann                       0123456789abcdef0123456789abcdef~1; => ~
a => ~
 => ";

/// Connections where a header or the query names Ann.
const NAMED: &str = "user ann~1; => user ann~1;
user ann\r~1; => user ann~1;
user ann => ~
user bob~1; => ~
user ann 0123456789abcdef0123456789abcdef~1; => ~
 => ";

/// Connections where users are known by their word: all is heard.
const BY_WORD: &str = "user ann~1; => user ann~1;
user ann 0123456789abcdef0123456789abcdef~1; => user ann 0123456789abcdef0123456789abcdef~1;
user ann\r => user ann\r
user => user
~~ => ~~
 => ";

// Gives bytes in pieces. One read fails.
#[derive(Drop)]
struct Pieces<'b> {
    bytes: &'b [u8],
    at: usize,
    piece: usize,
    fails_at: usize,
}

impl Read for Pieces<'_> {
    fn read(&mut self, buf: &mut [u8]) -> io::Result<usize> {
        if self.at >= self.fails_at {
            self.fails_at = usize::MAX;
            return Err(io::Error::from(ErrorKind::Interrupted));
        }
        let rest = self.bytes.get(self.at..).unwrap_or(&[]);
        let count = self.piece.min(buf.len()).min(rest.len());
        buf[..count].copy_from_slice(&rest[..count]);
        self.at = self.at.saturating_add(count);
        Ok(count)
    }
}

// Replaces each `~` by an LF.
fn lines_of(alloc: Global, text: &str) -> Result<Vec<u8>, AllocError> {
    let mut bytes = Vec::new(alloc);
    for byte in text.as_bytes() {
        bytes.push(if *byte == b'~' { b'\n' } else { *byte })?;
    }
    Ok(bytes)
}

// Reads all that is heard, at most `room` bytes at a time. A read that fails is tried again.
fn all_heard(
    alloc: Global,
    reader: &mut Admitted<'_, Pieces<'_>>,
    room: usize,
) -> Result<Vec<u8>, AllocError> {
    let mut heard = Vec::new(alloc);
    let mut buf = [0; 64];
    for _ in 0..10_000 {
        match reader.read(&mut buf[..room.min(64)]) {
            Ok(0) => break,
            Ok(count) => heard.extend_from_slice(buf.get(..count).unwrap_or(&[]))?,
            Err(_) => {}
        }
    }
    Ok(heard)
}

// Whether a row holds, for pieces of several lengths and a read that fails at several places.
fn holds(alloc: Global, door: Door<'_>, row: &str) -> Result<bool, AllocError> {
    let (came, wanted) = row.rsplit_once(" => ").unwrap_or((row, ""));
    let bytes = lines_of(alloc, came)?;
    let wanted = lines_of(alloc, wanted)?;
    for (piece, room, fails_at) in [
        (1, 1, 9),
        (64, 64, 41),
        (3, 7, 0),
        (64, 1, 1_000),
        (7, 64, 3),
    ] {
        let pieces = Pieces {
            bytes: bytes.as_slice(),
            at: 0,
            piece,
            fails_at,
        };
        let mut reader = Admitted::new(pieces, door);
        if all_heard(alloc, &mut reader, room)? != wanted {
            return Ok(false);
        }
    }
    Ok(true)
}

// Returns the first row that doesn't hold.
fn first_wrong<'r>(alloc: Global, door: Door<'_>, rows: &'r str) -> Result<&'r str, AllocError> {
    for row in rows.split('\n') {
        if !holds(alloc, door, row)? {
            return Ok(row);
        }
    }
    Ok("none")
}

#[test]
fn who_has_a_key_is_heard(rt: HostRuntime) -> Result<(), Fail> {
    let keys = two_users(rt.alloc())?;
    let door = Door {
        sign_in: SignIn::Keys(&keys),
        headers: &[],
        query: &[],
    };
    assert_eq!(rt; first_wrong(rt.alloc(), door, BY_KEY)?, "none");
    Ok(())
}

#[test]
fn whom_a_proxy_names_is_heard(rt: HostRuntime) -> Result<(), Fail> {
    let names: [&[u8]; 1] = [b"ann"];
    let by_header = Door {
        sign_in: SignIn::Header,
        headers: &names,
        query: &[],
    };
    let by_address = Door {
        sign_in: SignIn::Address,
        headers: &[],
        query: b"user=ann",
    };
    assert_eq!(rt; first_wrong(rt.alloc(), by_header, NAMED)?, "none");
    assert_eq!(rt; first_wrong(rt.alloc(), by_address, NAMED)?, "none");
    Ok(())
}

#[test]
fn whoever_comes_is_heard_by_their_word(rt: HostRuntime) -> Result<(), Fail> {
    let door = Door {
        sign_in: SignIn::Word,
        headers: &[],
        query: &[],
    };
    assert_eq!(rt; first_wrong(rt.alloc(), door, BY_WORD)?, "none");
    Ok(())
}

// A connection with the key of ann, at a door of keys and at one of this address.
fn at_two_doors<'k>(keys: &'k Keys, query: &'k [u8]) -> Doors<'k, Pieces<'k>> {
    let pieces = Pieces {
        bytes: b"user ann 0123456789abcdef0123456789abcdef\n",
        at: 0,
        piece: 10,
        fails_at: 1_000,
    };
    let by_key = Door::new(SignIn::Keys(keys), &[], &[]);
    let by_address = Door::new(SignIn::Address, &[], query);
    Doors::new(pieces, by_key, by_address)
}

// Where two doors stand one behind the other, the first line has to open both.
#[test]
fn the_address_and_the_key_name_one_user(rt: HostRuntime) -> Result<(), Fail> {
    let keys = two_users(rt.alloc())?;
    for (query, wanted) in [("user=ann", "user ann\n"), ("user=bob", "\n")] {
        let mut reader = at_two_doors(&keys, query.as_bytes());
        assert!(rt; reader.listen().is_ok());
        let mut heard = Vec::new(rt.alloc());
        assert!(rt; reader.read_to_end(&mut heard).is_ok());
        assert_eq!(rt; heard.as_slice(), wanted.as_bytes());
        let is_ann = query == "user=ann";
        assert_eq!(rt; reader.line(), is_ann.then_some(b"user ann\n".as_slice()));
        assert_eq!(rt; reader.away(), (!is_ann).then_some(TurnedAway::Other));
    }
    Ok(())
}
