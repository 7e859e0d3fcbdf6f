//! The users of a service, each with the digest of their key.
ghost use Rattle.std.specs.Prelude.{◌≡◌, ◌↔◌, ◌<◌, ◌^◌, [], ◌∷◌, ◌++◌, length, map, find, option_map, option_copied};
ghost use Rattle.std.specs.Prelude.{IfOk, IfErr, OnOk, IsTrue};
ghost use Rattle.std.specs.List.{list_any};
ghost use Rattle.std.specs.Str.{bytes_eq};
ghost use Rattle.nesl_keys.specs.declared.keys.KeysFault.TheVariants.{Memory};
ghost use Rattle.nesl_keys.specs.Entries.{AreApart, IsAdded, IsFile, IsRefused, IsWrong, IsWrongAt, Lists, Opens};
ghost use Rattle.nesl_keys.specs.Entries.{entry_of, lines_of};
ghost use Rattle.nesl_keys.specs.Shown.{kept_as, listed_in, listed_of};

use crate::entry::{Entry, entry_in};
use crate::secret::{digest_text, is_same_text};
use std::alloc::{AllocError, Global};
use thiserror::Error;

/// The first line of a file of keys.
pub(crate) const VERSION: &[u8] = b"pazkindu keys 1";

/// Why a file of keys is refused. Lines are counted from 1.
#[derive(Clone, Copy, PartialEq, Eq, Debug, Error)]
pub enum KeysFault {
    #[error("line 1 is not `pazkindu keys 1`")]
    Version,
    /// The line is neither empty, nor a comment, nor an entry.
    #[error("line {number} is not `NAME SALT DIGEST`")]
    Line { number: usize },
    /// An earlier line lists the same user.
    #[error("line {number} lists a user again")]
    Twice { number: usize },
    #[error("it lists no user")]
    Nobody,
    #[error("no memory")]
    Memory,
}

impl From<AllocError> for KeysFault {
    ghost from_gives = { λ error fault. fault ≡ Memory };

    fn from(_error: AllocError) -> KeysFault {
        KeysFault::Memory
    }
}

// In the place of the entry of a user who isn't listed, so that their key takes the same time.
const NOBODY: Entry<'static> = Entry {
    name: b"",
    salt: b"00000000000000000000000000000000",
    digest: b"0000000000000000000000000000000000000000000000000000000000000000",
};

// A copy of an entry.
#[derive(Drop)]
struct Kept {
    name: Vec<u8>,
    salt: Vec<u8>,
    digest: Vec<u8>,
}

/// The users of a service, each with the digest of their key.
#[derive(Drop)]
pub struct Keys {
    entries: Vec<Kept>,
}

impl Keys {
    /// Reads a file of keys. Its first line is `pazkindu keys 1`. Each further one is empty, begins with `#`, or is
    /// `NAME SALT DIGEST`.
    pub fn read(alloc: Global, bytes: &[u8]) -> Result<Keys, KeysFault>
        ensures ok { IfOk result (λ keys. IsFile bytes.now (listed_in keys)) }
        ensures err { IfErr result (IsRefused bytes.now) }
    {
        let lines = lines_of(alloc, bytes)?;
        let Some((first, rest)) = lines.as_slice().split_first() else {
            return Err(KeysFault::Version);
        };
        if *first != VERSION {
            return Err(KeysFault::Version);
        }
        let entries = read_lines(alloc, rest)?;
        if entries.is_empty() {
            return Err(KeysFault::Nobody);
        }
        Ok(Keys { entries })
    }

    /// Whether a user is listed, with the digest of this key. The time it takes doesn't depend on the key.
    pub fn opens(&self, name: &[u8], key: &[u8]) -> bool
        ensures { IsTrue result ↔ Opens (listed_in self.now) name.now key.now }
    {
        let found = self.entry_of(name);
        let entry = found.unwrap_or(NOBODY);
        let has_digest = is_same_text(&digest_text(entry.salt, key), entry.digest);
        found.is_some() && has_digest
    }

    /// Returns the entry of a user.
    pub fn entry_of(&self, name: &[u8]) -> Option<Entry<'_>>
        ensures { option_map listed_of result ≡ entry_of (listed_in self.now) name.now }
    {
        match find_kept(self.entries.as_slice(), name) {
            Some(kept) => Some(kept.lend()),
            None => None,
        }
    }
}

impl Kept {
    fn new(alloc: Global, entry: Entry<'_>) -> Result<Kept, AllocError>
        ensures { IfOk result (λ kept. kept_as kept ≡ listed_of entry.entry) }
    {
        let name = entry.name.to_vec(alloc)?;
        let salt = entry.salt.to_vec(alloc)?;
        let digest = entry.digest.to_vec(alloc)?;
        Ok(Kept { name, salt, digest })
    }

    fn lend(&self) -> Entry<'_>
        ensures { listed_of result ≡ kept_as self.now }
    {
        Entry {
            name: self.name.as_slice(),
            salt: self.salt.as_slice(),
            digest: self.digest.as_slice(),
        }
    }
}

// Returns the first entry with this name.
fn find_kept<'k>(entries: &'k [Kept], name: &[u8]) -> Option<&'k Kept>
    ensures { option_copied result ≡ find (λ kept. bytes_eq kept.name.items name.now) entries.now }
{
    entries.iter().find(|kept| kept.name.as_slice() == name)
}

// Whether an entry has this name.
fn has_name(entries: &[Kept], name: &[u8]) -> bool
    ensures { result ≡ list_any (λ kept. bytes_eq kept.name.items name.now) entries.now }
{
    entries.iter().any(|kept| kept.name.as_slice() == name)
}

// Returns the lines of a text. After a last LF there is an empty one.
fn lines_of(alloc: Global, text: &[u8]) -> Result<Vec<&[u8]>, AllocError>
    ensures { IfOk result (λ lines. map (λ line. line.now) lines.items ≡ lines_of text.now) }
{
    text.split(|b| *b == b'\n').collect(alloc)
}

// Reads the lines after the first one.
fn read_lines(alloc: Global, lines: &[&[u8]]) -> Result<Vec<Kept>, KeysFault>
    requires { length lines.now < 2 ^ 63 }
    ensures ok { IfOk result (λ entries. Lists (map (λ line. line.now) lines.now) (map kept_as entries.items)
        × AreApart (map kept_as entries.items)) }
    ensures err { IfErr result (IsWrong (map (λ line. line.now) lines.now)) }
{
    let mut entries = Vec::new(alloc);
    for (place, line) in lines.iter().enumerate() {
        add_line(alloc, &mut entries, line, place + 2)?;
    }
    Ok(entries)
}

// Adds the user that a line lists, if it lists one. `number` is the number of the line.
fn add_line(
    alloc: Global,
    entries: &mut Vec<Kept>,
    line: &[u8],
    number: usize,
) -> Result<(), KeysFault>
    ensures ok { OnOk result (IsAdded line.now (map kept_as entries.old.items) (map kept_as entries.new.items)) }
    ensures err { IfErr result (IsWrongAt number line.now (map kept_as entries.old.items)) }
{
    if line.is_empty() || line[0] == b'#' {
        return Ok(());
    }
    let Some(entry) = entry_in(line) else {
        return Err(KeysFault::Line { number });
    };
    if has_name(entries.as_slice(), entry.name) {
        return Err(KeysFault::Twice { number });
    }
    keep(alloc, entries, entry)?;
    Ok(())
}

// Adds a copy of an entry.
fn keep(alloc: Global, entries: &mut Vec<Kept>, entry: Entry<'_>) -> Result<(), AllocError>
    ensures { OnOk result (map kept_as entries.new.items
        ≡ map kept_as entries.old.items ++ listed_of entry.entry ∷ []) }
{
    entries.push(Kept::new(alloc, entry)?)?;
    Ok(())
}
