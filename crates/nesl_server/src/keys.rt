//! Makes keys for users, in a file that lists their digests.

use nesl_cli::failure::Failure;
use nesl_cli::run::KeysOffer;
use nesl_keys::make::{Made, Newcomer, RenewFault, make_keys, renew_key};
use nesl_keys::name::is_user_name;
use nesl_prompt::shelf::{Shelf, ShelfFault};
use nesl_system::refusal::KeysRefusal;
use std::alloc::{AllocError, Global};
use std::fs::{self, File, OpenOptions};
use std::io::{self, Print, Write};
use std::os::unix::fs::OpenOptionsExt;
use std::random::RandomSource;
use std::rt::Files;

/// The mode of a file that only its owner may open.
const PRIVATE: u32 = 0o600;

/// The address with which links begin if no other is given.
const PAGE: &str = "http://127.0.0.1/";

/// Makes the keys that are asked for, prints them, and writes the file.
pub fn make<'a, R: Files<File = File> + RandomSource + Print, F: Shelf>(
    rt: &R,
    alloc: Global,
    offer: &KeysOffer<'a>,
    shelf: &F,
) -> Result<(), Failure<'a>> {
    require_names(offer.users.as_slice())?;
    let path = offer.keys.file.unwrap_or("");
    let page = offer.keys.page.unwrap_or(PAGE).as_bytes();
    let made = if offer.keys.is_renewed {
        renew(rt, alloc, page, offer, shelf)
    } else {
        make_new(rt, alloc, page, offer)
    };
    match made {
        Ok(()) => Ok(()),
        Err(refusal) => Err(Failure::Keys(path, refusal)),
    }
}

// Fails with the first user whose name is none, or was named before.
fn require_names<'a>(users: &[&'a str]) -> Result<(), Failure<'a>> {
    for (place, user) in users.iter().enumerate() {
        if !is_user_name(user.as_bytes()) {
            return Err(Failure::Name(user));
        }
        if users[..place].contains(user) {
            return Err(Failure::Twice(user));
        }
    }
    Ok(())
}

// Gives a user a new key.
fn draw<'u, R: RandomSource>(rt: &R, user: &'u str) -> Result<Newcomer<'u>, KeysRefusal> {
    let mut newcomer = Newcomer {
        name: user.as_bytes(),
        salt: [0; 16],
        key: [0; 16],
    };
    let has_salt = rt.fill_bytes(&mut newcomer.salt).is_ok();
    let has_key = rt.fill_bytes(&mut newcomer.key).is_ok();
    if has_salt && has_key {
        Ok(newcomer)
    } else {
        Err(KeysRefusal::Random)
    }
}

// Makes a new file that lists all users. It is removed if the keys can't be printed.
fn make_new<R: Files<File = File> + RandomSource + Print>(
    rt: &R,
    alloc: Global,
    page: &[u8],
    offer: &KeysOffer<'_>,
) -> Result<(), KeysRefusal> {
    let path = offer.keys.file.unwrap_or("");
    let mut newcomers = Vec::new(alloc);
    for user in &offer.users {
        let newcomer = draw(rt, user)?;
        if newcomers.push(newcomer).is_err() {
            return Err(KeysRefusal::Memory);
        }
    }
    let made = match make_keys(alloc, page, newcomers.as_slice()) {
        Ok(made) => made,
        Err(fault) => return Err(KeysRefusal::Content(fault)),
    };
    write_new(rt, path, made.file.as_slice())?;
    if print(rt, &made).is_err() {
        let _ = fs::remove_file(rt, path).is_ok();
        return Err(KeysRefusal::Output);
    }
    Ok(())
}

// Writes a new file that only its owner may open. Nothing is ever overwritten.
fn write_new<R: Files<File = File>>(rt: &R, path: &str, bytes: &[u8]) -> Result<(), KeysRefusal> {
    let opened = OpenOptions::new()
        .write(true)
        .create_new(true)
        .mode(PRIVATE)
        .open(rt, path);
    let file = match opened {
        Ok(file) => file,
        Err(error) if error.kind() == io::ErrorKind::AlreadyExists => {
            return Err(KeysRefusal::Taken);
        }
        Err(error) => return Err(KeysRefusal::File(ShelfFault::from(error))),
    };
    match fill(file, bytes) {
        Ok(()) => Ok(()),
        Err(error) => {
            let _ = fs::remove_file(rt, path).is_ok();
            Err(KeysRefusal::File(ShelfFault::from(error)))
        }
    }
}

fn fill(file: File, bytes: &[u8]) -> io::Result<()> {
    let mut file = file;
    file.write_all(bytes)?;
    file.sync_all()
}

// Gives the users new keys in the file that lists them. The keys are printed before the file is replaced, so that
// nobody loses a key without getting another.
fn renew<R: RandomSource + Print, F: Shelf>(
    rt: &R,
    alloc: Global,
    page: &[u8],
    offer: &KeysOffer<'_>,
    shelf: &F,
) -> Result<(), KeysRefusal> {
    let path = offer.keys.file.unwrap_or("");
    let mut made = match shelf.read(alloc, path) {
        Ok(file) => Made {
            handouts: Vec::new(alloc),
            file,
        },
        Err(fault) => return Err(KeysRefusal::File(fault)),
    };
    for user in &offer.users {
        let newcomer = draw(rt, user)?;
        made = renew_one(alloc, page, made, &newcomer)?;
    }
    if print(rt, &made).is_err() {
        return Err(KeysRefusal::Output);
    }
    match shelf.write(alloc, path, made.file.as_slice()) {
        Ok(()) => Ok(()),
        Err(fault) => Err(KeysRefusal::File(fault)),
    }
}

// Gives one more user a new key.
fn renew_one(
    alloc: Global,
    page: &[u8],
    made: Made,
    newcomer: &Newcomer<'_>,
) -> Result<Made, KeysRefusal> {
    let Made { mut handouts, file } = made;
    match renew_key(alloc, page, file.as_slice(), newcomer) {
        Ok(renewed) => match handouts.extend_from_slice(renewed.handouts.as_slice()) {
            Ok(()) => Ok(Made {
                handouts,
                file: renewed.file,
            }),
            Err(AllocError) => Err(KeysRefusal::Memory),
        },
        Err(RenewFault::Unlisted) => Err(KeysRefusal::Unlisted),
        Err(RenewFault::Content(fault)) => Err(KeysRefusal::Content(fault)),
    }
}

// Prints what the users get.
fn print<R: Print>(rt: &R, made: &Made) -> io::Result<()> {
    rt.write_all(made.handouts.as_slice())
}
