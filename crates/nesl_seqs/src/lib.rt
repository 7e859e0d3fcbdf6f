//! The functions on sequences: planned, priced within a limit, and only then built.
#![tactic(auto)]

mod fold;
mod functions;
mod laws;
mod plans;

pub use functions::{apply, cost_and_size, plan};
pub use laws::{
    counts_digits, cuts_the_whole, numbers_of_range, places_of_rotate, takes_and_drops,
    takes_every_other, tells_equality, tells_places, weaves, worked_calls, zips,
};
pub use nesl_seqs_base::argument::Argument;
pub use nesl_seqs_base::price::Price;
pub use nesl_seqs_base::seq_fn::SeqFn;
pub use plans::Plan;
