//! Why a walk over tokens ends.

use crate::problems::Problem;
use nesl_lex::token::Span;
use std::alloc::AllocFailed;

/// What is wrong, where, and what else has to do with it.
#[derive(Clone, Copy)]
pub(crate) struct Wrong {
    pub(crate) problem: Problem,
    pub(crate) place: Span,
    pub(crate) second: Option<Span>,
}

/// Why a walk over tokens ends.
#[derive(Clone, Copy)]
pub(crate) enum Halt {
    Wrong(Wrong),
    Memory,
}

impl<T: Drop> From<AllocFailed<T>> for Halt {
    fn from(_error: AllocFailed<T>) -> Self {
        Halt::Memory
    }
}

/// Ends a walk: this is wrong at this place.
pub(crate) fn stop<T>(problem: Problem, place: Span) -> Result<T, Halt> {
    Err(Halt::Wrong(Wrong {
        problem,
        place,
        second: None,
    }))
}

/// Ends a walk: this is wrong at this place, and the second place has to do with it.
pub(crate) fn stop_with<T>(problem: Problem, place: Span, second: Span) -> Result<T, Halt> {
    Err(Halt::Wrong(Wrong {
        problem,
        place,
        second: Some(second),
    }))
}
