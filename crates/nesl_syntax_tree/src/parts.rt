// What is made of the tokens of a line: expressions, patterns and types with their heights. Only what is at most 100
// high is built.

pub mod lists;
pub mod part;
pub mod pattern;
pub mod types;
