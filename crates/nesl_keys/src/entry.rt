//! The lines of a file of keys that list a user.
ghost use Rattle.std.specs.Prelude.{◌≡◌, ◌≢◌, true, ◌++◌, ◌∷◌, [], IfOk, IfSome, IfNone, OnOk, length};
ghost use Rattle.nesl_keys.specs.Entries.{Listed, IsListed, entry_line};
ghost use Rattle.nesl_keys.specs.Shown.{listed_of};

use crate::cut::cut_word;
use crate::name::is_user_name;
use crate::secret::{DIGEST_DIGITS, SECRET_DIGITS, is_hex_text};
use std::alloc::AllocError;

/// A user of a file of keys, with a salt and the digest of this salt and the user's key, both in hex digits.
#[derive(Clone, Copy)]
pub struct Entry<'a> {
    pub name: &'a [u8],
    pub salt: &'a [u8],
    pub digest: &'a [u8],
}

/// Returns the entry that a line has.
pub fn entry_in(line: &[u8]) -> Option<Entry<'_>>
    ensures some { IfSome result (λ entry. IsListed (listed_of entry) × (line.now ≡ entry_line (listed_of entry))) }
    ensures none { IfNone result ((listed : Listed) → IsListed listed → line.now ≢ entry_line listed) }
{
    let Some(entry) = words_of(line) else {
        return None;
    };
    let is_listed = is_user_name(entry.name)
        && is_hex_text(entry.salt, SECRET_DIGITS)
        && is_hex_text(entry.digest, DIGEST_DIGITS);
    if is_listed { Some(entry) } else { None }
}

// Returns the three words of a line, if the last two are as long as a salt and a digest.
fn words_of(line: &[u8]) -> Option<Entry<'_>>
    ensures some { IfSome result (λ entry. (line.now ≡ entry_line (listed_of entry))
        × (length entry.salt.now ≡ 32) × (length entry.digest.now ≡ 64)) }
    ensures none { IfNone result ((listed : Listed) → length listed.salt ≡ 32 → length listed.digest ≡ 64
        → line.now ≢ entry_line listed) }
{
    let Some(last) = cut_word(line, DIGEST_DIGITS) else {
        return None;
    };
    let Some(middle) = cut_word(last.front, SECRET_DIGITS) else {
        return None;
    };
    Some(Entry {
        name: middle.front,
        salt: middle.word,
        digest: last.word,
    })
}

/// Writes the line of an entry, and an LF.
pub fn write_entry(file: &mut Vec<u8>, entry: Entry<'_>) -> Result<(), AllocError>
    ensures { OnOk result (file.new.items ≡ file.old.items ++ (entry_line (listed_of entry.entry) ++ 10 ∷ [])) }
{
    file.extend_from_slice(entry.name)?;
    file.push(b' ')?;
    file.extend_from_slice(entry.salt)?;
    file.push(b' ')?;
    file.extend_from_slice(entry.digest)?;
    file.push(b'\n')?;
    Ok(())
}
