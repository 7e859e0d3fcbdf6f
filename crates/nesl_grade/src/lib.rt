//! Submissions, graded by replies of sessions. Each session gets what an exercise gives, the submission, a test, and
//! nothing else.
#![tactic(auto)]

mod accounts;
pub mod adviser;
pub mod check;
pub mod class;
mod cost;
mod curve;
mod details;
pub mod examined;
mod files;
pub mod grade;
pub mod kept;
mod line;
mod reply;
pub mod run;
