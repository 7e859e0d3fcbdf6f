//! The names in a folder of kept sessions.

use nesl_house::roster::is_user_name;

/// What a name in the folder is of.
#[derive(Clone, Copy, PartialEq, Eq, Debug)]
pub(crate) enum NameKind {
    /// The file of a user.
    User,
    /// What the keeping of sessions leaves beside these: the lock, a new file, or an old one that was put aside.
    Beside,
    /// Something else.
    Stranger,
}

/// Finds out what a name is of. Only a user's has no dot.
pub(crate) fn kind_of(name: &str) -> NameKind {
    let bytes = name.as_bytes();
    if is_user_name(bytes) {
        return NameKind::User;
    }
    if name == ".lock" || is_beside(bytes) {
        return NameKind::Beside;
    }
    NameKind::Stranger
}

// Whether this is a user's name, a dot, and either `new` or the time at which a file was put aside.
fn is_beside(name: &[u8]) -> bool {
    let Some(dot) = name.iter().position(|byte| *byte == b'.') else {
        return false;
    };
    let (user, after) = name.split_at(dot);
    is_user_name(user) && (after == b".new".as_slice() || is_date(after))
}

// Whether this begins as a dot and a time do.
fn is_date(after: &[u8]) -> bool {
    after.len() >= 21 && after[1..].iter().all(|byte| is_date_byte(*byte))
}

fn is_date_byte(byte: u8) -> bool {
    byte.is_ascii_digit() || byte == b'-' || byte == b'T' || byte == b'Z' || byte == b'.'
}
