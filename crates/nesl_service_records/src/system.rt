//! Errors of the system.

use std::fmt;

/// An error of the system, by its number. It is shown by the name that Linux has for it, or else by the number.
#[derive(Clone, Copy, PartialEq, Eq, Debug)]
pub struct SystemError {
    pub code: i32,
}

impl fmt::Display for SystemError {
    fn fmt<W: fmt::Write>(&self, f: &mut fmt::Formatter<W>) -> fmt::Result {
        let code = self.code;
        match name_of(code) {
            Some(name) => f.write_str(name),
            None => write!(f, "error {code}"),
        }
    }
}

// Returns the name that Linux has for an error of a listener, a file or a folder.
fn name_of(code: i32) -> Option<&'static str> {
    let name = match code {
        1 => "EPERM",
        2 => "ENOENT",
        5 => "EIO",
        9 => "EBADF",
        11 => "EAGAIN",
        12 => "ENOMEM",
        13 => "EACCES",
        14 => "EFAULT",
        20 => "ENOTDIR",
        21 => "EISDIR",
        22 => "EINVAL",
        23 => "ENFILE",
        24 => "EMFILE",
        27 => "EFBIG",
        28 => "ENOSPC",
        30 => "EROFS",
        38 => "ENOSYS",
        40 => "ELOOP",
        71 => "EPROTO",
        88 => "ENOTSOCK",
        95 => "EOPNOTSUPP",
        105 => "ENOBUFS",
        116 => "ESTALE",
        122 => "EDQUOT",
        _ => return None,
    };
    Some(name)
}
