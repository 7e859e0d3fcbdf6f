//! A house that is spoken to through a reader and a writer.
#![tactic(auto)]

mod again;
pub mod batch;
pub mod device;
pub mod exchange;
mod guest;
pub mod hearer;
pub mod hinted;
mod hinting_guest;
pub mod keeper;
pub mod laws;
mod line;
pub mod renew;
pub mod serve;
mod talk;
pub mod tell;
mod turn;

pub use line::MOST_HANDED;
