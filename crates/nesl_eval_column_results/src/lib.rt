//! What a part of plain code evaluates to at all turns of a block of places: values in columns, and what they cost.
//! Nothing here recurs over code.
#![tactic(auto)]

pub mod block;
pub mod choices;
pub mod columns;
mod constants;
pub mod costs;
pub mod found;
pub mod functions;
pub mod names;
pub mod outer;
pub mod reach;
pub mod scopes;
pub mod values;
