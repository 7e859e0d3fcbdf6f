//! Asks something of a service by the socket of an operator.

use nesl_cli::failure::Failure;
use nesl_cli::run::RequestOffer;
use nesl_operator::request::{MOST_TRIES, ask_by};
use nesl_system::socket::Sockets;
use std::alloc::{AllocError, Global};
use std::io::Print;
use std::time::Clock;

/// Sends the request, and prints the answer. Fails unless the last line of the answer is `ok`.
pub fn ask<'a, R: Sockets + Clock + Print>(
    rt: &R,
    alloc: Global,
    offer: &RequestOffer<'a>,
) -> Result<(), Failure<'a>> {
    let path = offer.path.unwrap_or("");
    let Ok(line) = line_of(alloc, offer.words.as_slice()) else {
        return Err(Failure::RequestMemory);
    };
    let tries = match offer.words.first() {
        Some(word) if *word == "check" => MOST_TRIES,
        _ => 1,
    };
    match ask_by(rt, path, line.as_str(), tries) {
        Ok(()) => Ok(()),
        Err(refusal) => Err(Failure::Request(path, refusal)),
    }
}

// The words as a line.
fn line_of(alloc: Global, words: &[&str]) -> Result<String, AllocError> {
    let mut line = String::new(alloc);
    for (place, word) in words.iter().enumerate() {
        line.push_str(if place > 0 { " " } else { "" })?;
        line.push_str(word)?;
    }
    line.push_str("\n")?;
    Ok(line)
}
