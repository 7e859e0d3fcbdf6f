//! What a hint is, and hints on lines that have no tokens or no tree.
#![tactic(auto)]

mod bytes;
mod commands;
mod definitions;
mod elsewhere;
mod foreign;
mod halt;
pub mod hint;
mod line;
mod machine;
mod marks;
mod openings;
mod patterns;
mod problems;
mod sentence;
mod signs;
mod source;
mod tables;
mod tokens;

pub use bytes::lexical;
pub use elsewhere::{called_elsewhere, known_elsewhere, type_elsewhere};
pub use hint::Hint;
pub use line::syntax;
pub use sentence::{Filling, Sentence};
pub use source::{bytes_of, quoted};
pub use tables::said_of_word;
pub use tokens::{is_sign, name_in};
