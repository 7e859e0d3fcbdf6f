// Values of the language, as trees under any allocator. What has parts may have any number of owners
// and knows how many nodes it has; sequences of leaves are packed.
//
// Outside this crate a value is looked at by `shape`, `items`, `element` and the `as_` calls. Sequences
// are made from a vector of their elements, or by the `SequenceBuilder` of nesl_values_builder.
#![tactic(auto)]

mod copy;
mod count;
mod dropping;
mod element;
mod items;
mod listed;
mod making;
mod node;
mod parts;
mod same;
mod shape;
mod value;

pub use element::Element;
pub use items::Items;
pub use shape::Shape;
pub use value::Value;
