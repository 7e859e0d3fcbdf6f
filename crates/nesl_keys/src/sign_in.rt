//! How the users of a port are known, and what a service hears of them.
ghost use Rattle.std.specs.Prelude.{◌≡◌, ◌≢◌, ℕ, List, [], ◌∷◌, ◌++◌, true, codes, map};
ghost use Rattle.std.specs.Prelude.{IfOk, IfErr, OnErr, IfSome, IfNone};
ghost use Rattle.nesl_keys.specs.Admission.{Admits, IsKeyed, IsKeyLine, IsNamed, IsTurnedAway, IsUnkeyed, came_with};
ghost use Rattle.nesl_keys.specs.Admission.{keyed_line, user_line};
ghost use Rattle.nesl_keys.specs.Names.{is_user_name};
ghost use Rattle.nesl_keys.specs.Shown.{listed_in};

use crate::cut::cut_word;
use crate::keys::Keys;
use crate::name::is_user_name;
use crate::secret::{SECRET_DIGITS, is_hex_text};

/// How the users of a port are known.
#[derive(Clone, Copy)]
pub enum SignIn<'k> {
    /// By their word: whoever names a user is this user.
    Word,
    /// By their key. The first line is `user NAME KEY`.
    Keys(&'k Keys),
    /// By a header of their request, which a proxy sets. Its value is the name of the user.
    Header,
    /// By the query of their request, which a proxy sets or checks. It is `user=NAME`.
    Address,
}

/// What a connection came with.
#[derive(Clone, Copy)]
pub struct Visitor<'v> {
    /// The first line, without its LF.
    pub first_line: &'v [u8],
    /// The values of all headers that are looked at, in the order of the request.
    pub headers: &'v [&'v [u8]],
    /// What follows the first question mark of the address, as it was sent.
    pub query: &'v [u8],
}

/// Why a connection is nobody's.
#[derive(Clone, Copy, PartialEq, Eq, Debug)]
pub enum TurnedAway {
    /// The first line is not `user NAME KEY`.
    Line,
    /// It is, but no user of this name has this key.
    Key,
    /// There is not one header, or its value is no user name.
    Header,
    /// The query is not `user=NAME`.
    Address,
    /// The first line doesn't name the user that the header or the address names.
    Other,
}

/// Returns what a service hears in the place of the first line: the line that names the user. Where users are
/// known by their word that is the first line itself, whatever it is.
pub fn admit<'v>(sign_in: SignIn<'_>, visitor: Visitor<'v>) -> Result<&'v [u8], TurnedAway>
    ensures ok { IfOk result (λ heard. Admits (came_with visitor.entry) sign_in.entry heard.now) }
    ensures err { IfErr result (IsTurnedAway (came_with visitor.entry) sign_in.entry) }
    ensures nobody { OnErr result ((heard : List ℕ) → ¬ Admits (came_with visitor.entry) sign_in.entry heard) }
{
    match sign_in {
        SignIn::Word => Ok(visitor.first_line),
        SignIn::Keys(keys) => admit_by_key(keys, visitor.first_line),
        SignIn::Header => match header_user(visitor.headers) {
            Some(name) => admit_named(name, visitor.first_line),
            None => Err(TurnedAway::Header),
        },
        SignIn::Address => match address_user(visitor.query) {
            Some(name) => admit_named(name, visitor.first_line),
            None => Err(TurnedAway::Address),
        },
    }
}

// The words of a first line with a key.
#[derive(Clone, Copy)]
struct KeyLine<'v> {
    // What comes before the key and its space.
    user_line: &'v [u8],
    name: &'v [u8],
    key: &'v [u8],
}

// Lets in the user whose key is in the first line.
fn admit_by_key<'v>(keys: &Keys, line: &'v [u8]) -> Result<&'v [u8], TurnedAway>
    ensures ok { IfOk result (λ heard. IsKeyed (listed_in keys.now) line.now heard.now) }
    ensures err { IfErr result (IsUnkeyed (listed_in keys.now) line.now) }
{
    let Some(words) = words_of(line) else {
        return Err(TurnedAway::Line);
    };
    if keys.opens(words.name, words.key) {
        Ok(words.user_line)
    } else {
        Err(TurnedAway::Key)
    }
}

// Lets in the user of this name, if the first line names the same one.
fn admit_named<'v>(name: &[u8], line: &'v [u8]) -> Result<&'v [u8], TurnedAway>
    ensures ok { IfOk result (λ heard. (heard.now ≡ line.now) × (line.now ≡ user_line name.now)) }
    ensures err { IfErr result (λ fault. (fault ≡ TurnedAway.Other) × (line.now ≢ user_line name.now)) }
{
    match line.strip_prefix(b"user ") {
        Some(named) if named == name => Ok(line),
        _ => Err(TurnedAway::Other),
    }
}

// Returns the words of `user NAME KEY`.
fn words_of(line: &[u8]) -> Option<KeyLine<'_>>
    ensures some { IfSome result (λ words. IsKeyLine words.name.now words.key.now
        × (line.now ≡ keyed_line words.name.now words.key.now) × (words.user_line.now ≡ user_line words.name.now)) }
    ensures none { IfNone result ((name key : List ℕ) → IsKeyLine name key → line.now ≢ keyed_line name key) }
{
    let Some(parts) = cut_word(line, SECRET_DIGITS) else {
        return None;
    };
    let Some(name) = parts.front.strip_prefix(b"user ") else {
        return None;
    };
    if is_user_name(name) && is_hex_text(parts.word, SECRET_DIGITS) {
        Some(KeyLine {
            user_line: parts.front,
            name,
            key: parts.word,
        })
    } else {
        None
    }
}

// Returns the user whom the only header names.
fn header_user<'v>(headers: &[&'v [u8]]) -> Option<&'v [u8]>
    ensures some { IfSome result (λ name. (is_user_name name.now ≡ true)
        × (map (λ value. value.now) headers.now ≡ name.now ∷ [])) }
    ensures none { IfNone result ((name : List ℕ) → is_user_name name ≡ true
        → map (λ value. value.now) headers.now ≢ name ∷ []) }
{
    match headers {
        [name] if is_user_name(name) => Some(name),
        _ => None,
    }
}

// Returns the user whom a query names.
fn address_user(query: &[u8]) -> Option<&[u8]>
    ensures some { IfSome result (λ name. (is_user_name name.now ≡ true) × (query.now ≡ codes "user=" ++ name.now)) }
    ensures none { IfNone result ((name : List ℕ) → is_user_name name ≡ true → query.now ≢ codes "user=" ++ name) }
{
    match query.strip_prefix(b"user=") {
        Some(name) if is_user_name(name) => Some(name),
        _ => None,
    }
}
