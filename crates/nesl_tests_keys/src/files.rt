//! Files of keys that are read, and those that are refused.
use crate::sample::{FILE, two_users};
use nesl_keys::entry::{Entry, entry_in, write_entry};
use nesl_keys::keys::Keys;
use std::alloc::{AllocError, Global};
use std::test::Fail;

/// Why files are refused. In a file `~` is the end of a line, `V` the version, `A` an entry of Ann and `B` one of Bob,
/// `S` a salt and `D` a digest.
const REFUSED: &str = "V~A~ => read
V~A => read
V~~# two users~#~A~~~B => read
V~#A~A => read
 => line 1 is not `pazkindu keys 1`
A => line 1 is not `pazkindu keys 1`
~V~A => line 1 is not `pazkindu keys 1`
V ~A => line 1 is not `pazkindu keys 1`
V\r~A => line 1 is not `pazkindu keys 1`
pazkindu keys 2~A => line 1 is not `pazkindu keys 1`
V => it lists no user
V~ => it lists no user
V~#A => it lists no user
V~A~A => line 3 lists a user again
V~A~B~#~ann S D~ => line 5 lists a user again
V~A\r => line 2 is not `NAME SALT DIGEST`
V~ A => line 2 is not `NAME SALT DIGEST`
V~A  => line 2 is not `NAME SALT DIGEST`
V~B~ => read
V~B~  ~ => line 3 is not `NAME SALT DIGEST`
V~Ann S D => line 2 is not `NAME SALT DIGEST`
V~1a S D => line 2 is not `NAME SALT DIGEST`
V~ S D => line 2 is not `NAME SALT DIGEST`
V~ann  S D => line 2 is not `NAME SALT DIGEST`
V~ann S  D => line 2 is not `NAME SALT DIGEST`
V~ann\tS D => line 2 is not `NAME SALT DIGEST`
V~ann D S => line 2 is not `NAME SALT DIGEST`
V~ann S => line 2 is not `NAME SALT DIGEST`
V~ann S S => line 2 is not `NAME SALT DIGEST`
V~ann D D => line 2 is not `NAME SALT DIGEST`
V~ann S D D => line 2 is not `NAME SALT DIGEST`
V~abcdefghijklmnopq S D => line 2 is not `NAME SALT DIGEST`
V~abcdefghijklmnop S D => read
V~A~V~ => line 3 is not `NAME SALT DIGEST`";

const SALT: &str = "00112233445566778899aabbccddeeff";

const DIGEST: &str = "1bfdb43545f0dcd7514ca7733399e3235fd99e99b50c08404b05f47d5600e983";

fn push_entry(text: &mut String, name: &str) -> Result<(), AllocError> {
    text.push_str(name)?;
    text.push_str(" ")?;
    text.push_str(SALT)?;
    text.push_str(" ")?;
    text.push_str(DIGEST)
}

// Writes out the file of a row.
fn written_out(alloc: Global, file: &str) -> Result<String, AllocError> {
    let mut text = String::new(alloc);
    for letter in file.chars() {
        match letter {
            '~' => text.push_str("\n")?,
            'V' => text.push_str("pazkindu keys 1")?,
            'A' if !file.contains("Ann") => push_entry(&mut text, "ann")?,
            'B' => push_entry(&mut text, "bob")?,
            'S' => text.push_str(SALT)?,
            'D' => text.push_str(DIGEST)?,
            _ => text.push(letter)?,
        }
    }
    Ok(text)
}

// Returns why a file is refused, or `read`.
fn told_of(alloc: Global, file: &str) -> Result<String, AllocError> {
    let text = written_out(alloc, file)?;
    match Keys::read(alloc, text.as_bytes()) {
        Ok(_) => String::from_str(alloc, "read"),
        Err(fault) => format!(in alloc; "{fault}"),
    }
}

// Returns the first row that doesn't hold.
fn first_wrong(alloc: Global, rows: &str) -> Result<&str, AllocError> {
    for row in rows.split('\n') {
        let (file, wanted) = row.rsplit_once(" => ").unwrap_or((row, ""));
        if told_of(alloc, file)?.as_str() != wanted {
            return Ok(row);
        }
    }
    Ok("none")
}

#[test]
fn files_are_read_or_refused(rt: HostRuntime) -> Result<(), Fail> {
    let wrong = first_wrong(rt.alloc(), REFUSED)?;
    assert_eq!(rt; wrong, "none");
    Ok(())
}

#[test]
fn a_written_entry_is_read(rt: HostRuntime) -> Result<(), Fail> {
    let mut line = Vec::new(rt.alloc());
    let entry = Entry {
        name: b"ann",
        salt: SALT.as_bytes(),
        digest: DIGEST.as_bytes(),
    };
    write_entry(&mut line, entry)?;
    let read = entry_in(line.as_slice().strip_suffix(b"\n").unwrap_or(&[])).ok_or("an entry")?;
    assert_eq!(rt; read.name, entry.name);
    assert_eq!(rt; read.salt, entry.salt);
    assert_eq!(rt; read.digest, entry.digest);
    Ok(())
}

#[test]
fn users_are_found(rt: HostRuntime) -> Result<(), Fail> {
    let keys = two_users(rt.alloc())?;
    assert_eq!(rt;
        keys.entry_of(b"ann").ok_or("Ann")?.digest,
        DIGEST.as_bytes()
    );
    assert!(rt; keys.entry_of(b"eve").is_none());
    assert!(rt; keys.opens(b"ann", b"0123456789abcdef0123456789abcdef"));
    assert!(rt; !keys.opens(b"eve", b"0123456789abcdef0123456789abcdef"));
    assert!(rt; FILE.starts_with("pazkindu keys 1\n"));
    Ok(())
}
