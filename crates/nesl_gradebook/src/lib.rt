//! The grades of submissions: a table, CSV, JSON, JUnit and pages.
#![tactic(auto)]

pub mod book;
pub mod class_page;
pub mod csv_text;
mod curve;
pub mod json;
pub mod junit;
pub mod out;
pub mod page;
mod refusal;
pub mod table;
mod told;
