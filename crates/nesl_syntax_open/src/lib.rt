// What is open while a line is read, and what each mark makes of it.
#![tactic(auto)]

mod fault;
pub mod mark;
pub mod mode;
pub mod pending;
pub mod turn;

pub use fault::ParseFault;
