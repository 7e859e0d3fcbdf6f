//! What operations make of their operands, and the rounds of an apply-to-each: what they gather turn by turn, and the
//! turns that are taken in columns.
#![tactic(auto)]

mod chosen;
mod columns;
mod leaves;
mod making;
mod parts;
mod rounds;
pub mod state;

pub use columns::{Setting, scope_round, take_in_columns};
pub use leaves::{Sight, enter_at, enter_leaf};
pub use making::{apply_to_value, make_of_many, make_of_two};
pub use parts::{of_one_leaf, of_two_leaves, of_value_and_leaf};
pub use rounds::{depth_after, gather, go_to_body, push_row};
pub use state::{Chosen, Round};
