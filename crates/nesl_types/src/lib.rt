//! Types and their classes, the schemes of functions, what each top-level name is, and the texts of types.
#![tactic(auto)]

pub mod bindings;
pub mod classes;
mod kept;
pub mod order;
pub mod schemes;
pub mod texts;

pub use bindings::{Context, Top};
pub use classes::{Class, meet};
pub use nesl_types_shared::{Kind, Part, Ty};
pub use order::NameOrder;
pub use schemes::Scheme;
pub use texts::{scheme_text, type_text, write_scheme, write_type};
