//! Reads a first line that has come.
ghost use Rattle.std.specs.Prelude.{◌≡◌, ℕ, ◌<◌, ◌≤◌, List, None, Some, IfOk, OnErr, length, take};
ghost use Rattle.nesl_keys.specs.Admission.{user_line};
ghost use Rattle.nesl_keys.specs.Hearing.{user_let_in, without_return};

use crate::admitted::Door;
use crate::sign_in::{SignIn, TurnedAway, Visitor, admit};

/// Returns how many bytes of a first line name the user who is let in.
pub(crate) fn let_in(door: Door<'_>, line: &[u8]) -> Result<usize, TurnedAway>
    ensures ok { IfOk result (λ count. (name : List ℕ) × (user_let_in door.entry line.now ≡ Some name)
        × (take count line.now ≡ user_line name) × (count ≤ length line.now) × (count < 55)) }
    ensures err { OnErr result (user_let_in door.entry line.now ≡ None) }
{
    if let SignIn::Word = door.sign_in {
        return Err(TurnedAway::Line);
    }
    let visitor = Visitor {
        first_line: line,
        headers: door.headers,
        query: door.query,
    };
    match admit(door.sign_in, visitor) {
        Ok(heard) => Ok(heard.len()),
        Err(away) => Err(away),
    }
}

/// Takes a CR off the end of a line.
pub(crate) fn without_return(line: &[u8]) -> &[u8]
    ensures { result.now ≡ without_return line.now }
{
    if line.len() > 0 && line[line.len() - 1] == b'\r' {
        &line[..line.len() - 1]
    } else {
        line
    }
}
