//! Types in a bank, each made of earlier ones, so that equal parts are kept once and nothing recurs deep over a type.
#![tactic(auto)]

pub mod bank;
mod lists;
pub mod part;
pub mod parts;
pub mod renaming;
pub mod shape;
mod shapes;
pub mod types;
pub mod visiting;

pub use bank::Bank;
pub use part::{Kind, Part};
pub use parts::Parts;
pub use renaming::{rename, rename_type};
pub use shape::Shape;
pub use types::Ty;
pub use visiting::{note_variables, variables};
