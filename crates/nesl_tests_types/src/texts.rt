//! What is written: numbers and classes.

use nesl_types::Class;
use std::alloc::AllocError;

/// Writes a number after a mark.
pub fn push_number(mark: &str, number: u64, text: &mut String) -> Result<(), AllocError> {
    write!(text, "{mark}{number}")
}

/// The word for a class.
pub fn word_of(class: Class) -> &'static str {
    match class {
        Class::Any => "any",
        Class::Ordinal => "ordinal",
        Class::Number => "number",
        Class::Logical => "logical",
    }
}
