//! The words of the command line, as clap reads them, and the texts of help.
#![tactic(auto)]

pub mod control_words;
pub mod grade_words;
mod help;
pub mod keep_words;
pub mod limit_words;
pub mod listed;
pub mod words;
