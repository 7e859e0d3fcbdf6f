//! What is found of a line, as far as no expression has to be evaluated.

pub mod drops;
pub mod finding;
mod reading;
mod stops;
mod written;

pub use reading::{Reading, reading_of};
pub use stops::Stopped;
pub use written::{WrittenFunction, find_datatype, find_function, find_type, variable_type};
