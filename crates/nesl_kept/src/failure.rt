//! Why kept sessions could not be looked at.

use crate::folder::PlaceFault;
use nesl_line::keeper::{KeepFault, Mismatch};
use nesl_service_records::keeping::KeepReason;
use std::alloc::AllocError;
use std::fmt;
use thiserror::Error;

/// Why the session of a user can't be had.
#[derive(Clone, Copy, PartialEq, Eq, Debug)]
pub enum Trouble {
    /// The file can't be read.
    Unread(PlaceFault),
    /// The file doesn't fit.
    Misfit(Mismatch),
}

impl fmt::Display for Trouble {
    fn fmt<W: fmt::Write>(&self, f: &mut fmt::Formatter<W>) -> fmt::Result {
        match self {
            Trouble::Unread(fault) => write!(f, "can't be read: {fault}"),
            Trouble::Misfit(mismatch) => {
                let reason = KeepReason {
                    fault: KeepFault::Strange(*mismatch),
                };
                write!(f, "doesn't come back: {reason}")
            }
        }
    }
}

/// Why a command on kept sessions failed.
#[derive(Clone, Copy, PartialEq, Eq, Debug, Error)]
pub enum LookFailure<'a> {
    #[error("keep: no memory")]
    Memory,
    #[error("keep: write fault")]
    Write,
    /// No user can have this name.
    #[error("keep: bad name {0}")]
    Name(&'a str),
    /// This folder can't be used.
    #[error("keep: can't use {0}\n{1}")]
    Folder(&'a str, PlaceFault),
    /// The session of this user can't be had.
    #[error("keep: {0} {1}")]
    Session(&'a str, Trouble),
    /// The session of this user can't begin anew.
    #[error("keep: {0} can't begin anew: {1}")]
    Renewal(&'a str, PlaceFault),
    /// This number of all sessions can't be had.
    #[error("keep: {lost} of {all} sessions can't be had")]
    Lost { lost: usize, all: usize },
}

impl From<AllocError> for LookFailure<'_> {
    fn from(_error: AllocError) -> Self {
        LookFailure::Memory
    }
}
