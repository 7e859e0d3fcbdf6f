//! Lessons that a teacher writes in Markdown, in the form in which the page shows them.
#![tactic(auto)]

mod groups;
mod json;
pub mod lesson;
mod part;
