// Tokens of a line, with spans.
#![tactic(auto)]

mod fault;
mod laws;
mod line;
mod scan;
pub mod token;

pub use fault::LexFault;
pub use laws::{one_reading, reading_computes, tokens_in_order, worked_lines};
pub use line::lex;
