//! Code in the order of evaluation: operations on a stack, where the values of local names have places that don't
//! change.

mod laws;

pub use laws::blocks_run_as_code;
