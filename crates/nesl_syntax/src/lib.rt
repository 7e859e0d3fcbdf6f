// The grammar: the one tree of a line's tokens.
#![tactic(auto)]

mod cut;
mod form;
mod function;
mod laws;
mod line;
mod parse;
mod signature;
mod text;

pub use form::{one_form, parse_form};
pub use laws::{form_computes, one_phrase};
pub use nesl_syntax_open::ParseFault;
pub use nesl_syntax_tree::{spans_in_order, tree};
