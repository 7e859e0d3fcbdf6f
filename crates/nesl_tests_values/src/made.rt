//! Types and a session that the tests are made on.
use nesl_types::{Context, Top, Ty};
use std::alloc::{AllocError, Global};

fn taken<T>(made: &mut Vec<T>) -> Result<T, AllocError> {
    made.pop().ok_or(AllocError)
}

// The number that a digit is.
fn digit(byte: u8) -> u64 {
    u64::from(byte.saturating_sub(b'0'))
}

// The type of a word, made of those before it.
fn type_by(alloc: Global, word: &[u8], types: &mut Vec<Ty>) -> Result<Ty, AllocError> {
    match word {
        [b'I'] => Ty::int(alloc),
        [b'B'] => Ty::boolean(alloc),
        [b'C'] => Ty::character(alloc),
        [b'N', tag] => Ty::named(alloc, digit(*tag)),
        [b'S'] => Ty::seq_of(alloc, &taken(types)?),
        [b'P'] => {
            let right = taken(types)?;
            Ty::both(alloc, &taken(types)?, &right)
        }
        _ => Err(AllocError),
    }
}

/// The type of words, each after what it is made of: `I`, `B` and `C` are the numbers, the truth values and the
/// characters, `N0` the datatype with a tag, `S` the sequences of the type before it, and `P` the pairs of the two
/// before it.
pub fn type_of(alloc: Global, words: &str) -> Result<Ty, AllocError> {
    let mut types = Vec::new(alloc);
    for word in words.split(' ') {
        let ty = type_by(alloc, word.as_bytes(), &mut types)?;
        types.push(ty)?;
    }
    taken(&mut types)
}

fn add_datatype(
    alloc: Global,
    context: &mut Context<u8>,
    name: &[u8],
    tag: u64,
    words: &str,
) -> Result<(), AllocError> {
    let content = type_of(alloc, words)?;
    context.set(alloc, name, Top::Datatype(tag, content), 0)
}

fn add_names(alloc: Global, context: &mut Context<u8>) -> Result<(), AllocError> {
    add_datatype(alloc, context, b"point", 0, "I I P")?;
    add_datatype(alloc, context, b"r", 1, "I I P I P")?;
    add_datatype(alloc, context, b"q", 2, "N0 S")
}

/// A session with the datatypes `point` of two numbers, `r` of a pair and a number, `q` of a list of points.
pub fn session(alloc: Global) -> Result<Context<u8>, AllocError> {
    let mut context = Context::new(alloc);
    add_names(alloc, &mut context)?;
    Ok(context)
}
