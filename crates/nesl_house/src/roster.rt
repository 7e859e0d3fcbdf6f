//! Who may have a session in a house.
ghost use Rattle.std.specs.Prelude.{◌≡◌, ◌≤◌, ◌<◌, OnOk, IfErr, map, ◌||◌};
ghost use Rattle.std.specs.List.{list_any, list_all};
ghost use Rattle.std.specs.Str.{bytes_eq};
ghost use Rattle.nesl_house.specs.Roster.{is_small_letter, is_digit, is_user_name, IsRoster, IsRefused};

use thiserror::Error;

/// Why a house can't be opened.
#[derive(Clone, Copy, PartialEq, Eq, Debug, Error)]
pub enum NewFault {
    /// The roster has no name, or more than 64.
    #[error("bad count")]
    Count,
    /// The entry at this place, counted from 0, is no user name.
    #[error("bad name at place {place}")]
    Name { place: usize },
    /// The name at this place, counted from 0, is at an earlier place too.
    #[error("the name at place {place} stands twice")]
    Twice { place: usize },
    /// Memory ran out.
    #[error("no memory")]
    Memory,
}

/// The most users of a house.
pub const MOST_USERS: usize = 64;

/// The most bytes of a user name.
pub const MOST_NAME_BYTES: usize = 16;

/// Checks the count; then, place by place, the name and whether it is at an earlier place too.
pub(crate) fn check(roster: &[Vec<u8>]) -> Result<(), NewFault>
    ensures roster { OnOk result (IsRoster (map (λ v. v.items) roster.now)) }
    ensures refused { IfErr result (IsRefused (map (λ v. v.items) roster.now)) }
{
    if roster.is_empty() {
        return Err(NewFault::Count);
    }
    if roster.len() > MOST_USERS {
        return Err(NewFault::Count);
    }
    for (place, name) in roster.iter().enumerate() {
        let name = name.as_slice();
        if !is_user_name(name) {
            return Err(NewFault::Name { place });
        }
        if stands_in(&roster[..place], name) {
            return Err(NewFault::Twice { place });
        }
    }
    Ok(())
}

/// Whether this is a user name: 1 to 16 bytes, a letter `a` to `z`, then letters and digits.
pub fn is_user_name(name: &[u8]) -> bool
    ensures { result ≡ is_user_name name.now }
{
    let Some(first) = name.first() else {
        return false;
    };
    if !is_letter(*first) {
        return false;
    }
    if name.len() > MOST_NAME_BYTES {
        return false;
    }
    is_spelled(name)
}

// Whether these bytes are letters and digits.
fn is_spelled(name: &[u8]) -> bool
    ensures { result ≡ list_all (λ b. is_small_letter b || is_digit b) name.now }
{
    name.iter().all(|b| is_letter(*b) || is_digit(*b))
}

fn is_letter(b: u8) -> bool
    ensures { result ≡ is_small_letter b }
{
    b'a' <= b && b <= b'z'
}

fn is_digit(b: u8) -> bool
    ensures { result ≡ is_digit b }
{
    b'0' <= b && b <= b'9'
}

// Whether the name is one of these.
fn stands_in(names: &[Vec<u8>], name: &[u8]) -> bool
    ensures { result ≡ list_any (λ v. bytes_eq v.items name.now) names.now }
{
    names.iter().any(|other| other.as_slice() == name)
}
