//! The users of an offered service whom a file lists.

use nesl_cli::failure::{Failure, UsersRefusal};
use nesl_cli::run::Offer;
use nesl_prompt::shelf::Shelf;
use nesl_service::service::ServeFault;
use std::alloc::{AllocError, Global};
use std::str;

/// Returns the text of the file that lists users. It is empty if there is no such file. The text is never freed: the
/// process serves these users to its end.
pub fn read<'a, F: Shelf>(
    alloc: Global,
    offer: &Offer<'a>,
    shelf: &F,
) -> Result<&'a str, Failure<'a>> {
    let Some(path) = offer.service.users else {
        return Ok("");
    };
    match shelf.read(alloc, path) {
        Ok(bytes) => text_of(path, bytes),
        Err(fault) => Err(Failure::Users(path, UsersRefusal::File(fault))),
    }
}

// Returns the bytes of a file as a text that is never freed.
fn text_of<'a>(path: &'a str, bytes: Vec<u8>) -> Result<&'a str, Failure<'a>> {
    let bytes: &'a [u8] = bytes.leak();
    match str::from_utf8(bytes) {
        Ok(text) => Ok(text),
        Err(_) => Err(Failure::Users(path, UsersRefusal::Encoding)),
    }
}

/// Returns the offer with the users of a text. Fails if there is no user at all.
pub fn add<'a>(alloc: Global, offer: &Offer<'a>, text: &'a str) -> Result<Offer<'a>, Failure<'a>> {
    match offer.with_users(alloc, text) {
        Ok(offer) if offer.users.is_empty() => Err(Failure::NoUsers),
        Ok(offer) => Ok(offer),
        Err(AllocError) => Err(Failure::Serve(ServeFault::Memory)),
    }
}
