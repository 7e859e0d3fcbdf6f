//! Many users, each with a session of their own.
#![tactic(auto)]

pub mod house;
pub mod laws;
pub mod lease;
pub mod manner;
pub mod roster;
pub mod seat;
pub mod slots;
pub mod table;
pub mod user;
