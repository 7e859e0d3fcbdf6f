//! The names that a text lists.
ghost use Rattle.std.specs.Prelude.{◌≡◌, IfOk, map};
ghost use Rattle.nesl_words.specs.Listed.{is_name, names_listed};

use std::alloc::{AllocError, Global};

/// Returns the names that a text lists, one on each line. Empty lines and those that begin with `#` list nothing.
pub fn names_listed(alloc: Global, text: &str) -> Result<Vec<&str>, AllocError>
    ensures { IfOk result (λ names. map (λ name. name.now) names.items ≡ names_listed text.now) }
{
    let mut names = Vec::new(alloc);
    for line in text.lines() {
        let line = line.trim();
        if is_name(line) {
            names.push(line)?;
        }
    }
    Ok(names)
}

// Whether a line without blanks around it is a name, and no comment.
fn is_name(line: &str) -> bool
    ensures { result ≡ is_name line.now }
{
    match line.as_bytes().first() {
        Some(byte) => *byte != b'#',
        None => false,
    }
}
