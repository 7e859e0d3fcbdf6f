//! Tests of tokens, trees, types and equations.

mod equations;
mod faults;
mod forms;
mod shown;
mod tokens;
mod types;
