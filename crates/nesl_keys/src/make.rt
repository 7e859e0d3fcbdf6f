//! New keys: the file that lists them, and what each user gets.
ghost use Rattle.std.specs.Prelude.{◌≡◌, ◌++◌, IfOk, IfNone, OnOk};
ghost use Rattle.hex.specs.Hex.{encode_lower};
ghost use Rattle.nesl_keys.specs.Making.{AllOpen, IsMade, IsRenewed, handout, handouts, issue_of, keys_file, link};
ghost use Rattle.nesl_keys.specs.Making.{listed_from, listing};
ghost use Rattle.nesl_keys.specs.Shown.{listed_in};

use crate::entry::{Entry, entry_in, write_entry};
use crate::keys::{Keys, KeysFault, VERSION};
use crate::secret::{SECRET_BYTES, SECRET_DIGITS, digest_text};
use std::alloc::{AllocError, Global};

/// A user who gets a key. The bytes are random, and used nowhere else.
#[derive(Clone, Copy)]
pub struct Newcomer<'a> {
    pub name: &'a [u8],
    pub salt: [u8; SECRET_BYTES],
    pub key: [u8; SECRET_BYTES],
}

/// What is made of new keys.
#[derive(Drop)]
pub struct Made {
    /// A line `NAME KEY LINK` for each user. The keys are nowhere else.
    pub handouts: Vec<u8>,
    /// The file of keys.
    pub file: Vec<u8>,
}

/// Makes a file of keys for these users, and what they get. `page` is the address of the page, with which each link
/// begins. Fails with what would be wrong with the file: the user at place 0 is in its second line.
pub fn make_keys(alloc: Global, page: &[u8], newcomers: &[Newcomer<'_>]) -> Result<Made, KeysFault>
    ensures { IfOk result (λ made. IsMade page.now newcomers.now made.handouts.items made.file.items) }
{
    let file = make_file(alloc, newcomers)?;
    let keys = Keys::read(alloc, file.as_slice())?;
    if let Some(place) = find_unopened(&keys, newcomers) {
        let number = place.saturating_add(2);
        return Err(KeysFault::Line { number });
    }
    let handouts = make_handouts(alloc, page, newcomers)?;
    Ok(Made { handouts, file })
}

/// Why a key isn't renewed.
#[derive(Clone, Copy, PartialEq, Eq, Debug)]
pub enum RenewFault {
    /// The file is no file of keys, or memory ran out.
    Content(KeysFault),
    /// It doesn't list the user.
    Unlisted,
}

impl From<KeysFault> for RenewFault {
    fn from(fault: KeysFault) -> RenewFault {
        RenewFault::Content(fault)
    }
}

impl From<AllocError> for RenewFault {
    fn from(_error: AllocError) -> RenewFault {
        RenewFault::Content(KeysFault::Memory)
    }
}

/// Makes a file of keys in which a user who was listed has a new key, and what the user gets. All other lines stay.
pub fn renew_key(
    alloc: Global,
    page: &[u8],
    file: &[u8],
    newcomer: &Newcomer<'_>,
) -> Result<Made, RenewFault>
    ensures { IfOk result (λ made. IsRenewed page.now newcomer.now made.handouts.items made.file.items) }
{
    let keys = Keys::read(alloc, file)?;
    if keys.entry_of(newcomer.name).is_none() {
        return Err(RenewFault::Unlisted);
    }
    let file = replace_line(alloc, file, newcomer)?;
    let renewed = Keys::read(alloc, file.as_slice())?;
    if !renewed.opens(newcomer.name, &newcomer.key_text()) {
        return Err(RenewFault::Unlisted);
    }
    let mut handouts = Vec::new(alloc);
    hand_out(&mut handouts, page, newcomer)?;
    Ok(Made { handouts, file })
}

// Replaces the line that lists a user.
fn replace_line(
    alloc: Global,
    file: &[u8],
    newcomer: &Newcomer<'_>,
) -> Result<Vec<u8>, AllocError> {
    let mut text = Vec::new(alloc);
    for line in file.split(|b| *b == b'\n') {
        match entry_in(line) {
            Some(entry) if entry.name == newcomer.name => list_newcomer(&mut text, newcomer)?,
            _ => put_line(&mut text, line)?,
        }
    }
    // What is after the last LF of the file has got one, too.
    let _ = text.pop();
    Ok(text)
}

fn put_line(text: &mut Vec<u8>, line: &[u8]) -> Result<(), AllocError> {
    text.extend_from_slice(line)?;
    text.push(b'\n')?;
    Ok(())
}

impl Newcomer<'_> {
    fn key_text(&self) -> [u8; SECRET_DIGITS]
        ensures { result ≡ encode_lower self.now.key }
    {
        hex_text(&self.key)
    }

    fn salt_text(&self) -> [u8; SECRET_DIGITS]
        ensures { result ≡ encode_lower self.now.salt }
    {
        hex_text(&self.salt)
    }
}

fn hex_text(bytes: &[u8; SECRET_BYTES]) -> [u8; SECRET_DIGITS]
    ensures { result ≡ encode_lower bytes.now }
{
    let mut text = [0u8; SECRET_DIGITS];
    if hex::encode_to_slice(bytes, &mut text).is_err() {
        unreachable!();
    }
    text
}

// Returns the place of a user whose key doesn't open their seat, if there is one.
fn find_unopened(keys: &Keys, newcomers: &[Newcomer<'_>]) -> Option<usize>
    ensures { IfNone result (AllOpen (listed_in keys.now) newcomers.now) }
{
    for (place, newcomer) in newcomers.iter().enumerate() {
        if !keys.opens(newcomer.name, &newcomer.key_text()) {
            return Some(place);
        }
    }
    None
}

// Makes a file that lists these users.
fn make_file(alloc: Global, newcomers: &[Newcomer<'_>]) -> Result<Vec<u8>, AllocError>
    ensures { IfOk result (λ file. file.items ≡ keys_file newcomers.now) }
{
    let mut file = VERSION.to_vec(alloc)?;
    file.push(b'\n')?;
    for newcomer in newcomers {
        list_newcomer(&mut file, newcomer)?;
    }
    Ok(file)
}

// Writes the line that lists a user.
fn list_newcomer(file: &mut Vec<u8>, newcomer: &Newcomer<'_>) -> Result<(), AllocError>
    ensures { OnOk result (file.new.items ≡ file.old.items ++ listing (listed_from (issue_of newcomer.now))) }
{
    let salt = newcomer.salt_text();
    let digest = digest_text(&salt, &newcomer.key_text());
    let entry = Entry {
        name: newcomer.name,
        salt: &salt,
        digest: &digest,
    };
    write_entry(file, entry)
}

fn make_handouts(
    alloc: Global,
    page: &[u8],
    newcomers: &[Newcomer<'_>],
) -> Result<Vec<u8>, AllocError>
    ensures { IfOk result (λ lines. lines.items ≡ handouts page.now newcomers.now) }
{
    let mut lines = Vec::new(alloc);
    for newcomer in newcomers {
        hand_out(&mut lines, page, newcomer)?;
    }
    Ok(lines)
}

// Writes `NAME KEY LINK`, and an LF.
fn hand_out(lines: &mut Vec<u8>, page: &[u8], newcomer: &Newcomer<'_>) -> Result<(), AllocError>
    ensures { OnOk result (lines.new.items ≡ lines.old.items ++ handout page.now (issue_of newcomer.now)) }
{
    let key = newcomer.key_text();
    lines.extend_from_slice(newcomer.name)?;
    lines.push(b' ')?;
    lines.extend_from_slice(&key)?;
    lines.push(b' ')?;
    write_link(lines, page, newcomer.name, &key)?;
    lines.push(b'\n')?;
    Ok(())
}

// Writes the link that signs a user in.
fn write_link(lines: &mut Vec<u8>, page: &[u8], name: &[u8], key: &[u8]) -> Result<(), AllocError>
    ensures { OnOk result (lines.new.items ≡ lines.old.items ++ link page.now name.now key.now) }
{
    lines.extend_from_slice(page)?;
    lines.push(b'#')?;
    lines.extend_from_slice(name)?;
    lines.push(b'.')?;
    lines.extend_from_slice(key)?;
    Ok(())
}
