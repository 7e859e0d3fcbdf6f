//! The seat at a place of a table.
ghost use Rattle.std.specs.Prelude.{◌≡◌, ◌<◌, IfOk, OnErr, OnOk};
ghost use Rattle.nesl_session_meaning.specs.State.{empty_log, recorded_lines};
ghost use Rattle.nesl_session_meaning.specs.Step.{most_recorded};
ghost use Rattle.nesl_session_meaning.specs.Solo.{Responds};
ghost use Rattle.nesl_house.specs.Renewal.{renewed};

use nesl_eval_helpers::{Gate, Helpers};
use nesl_session::MOST_RECORDED;
use nesl_session::answer::Answer;
use nesl_session::limits::Limits;
use nesl_session::session::Session;
use std::alloc::{AllocError, Global};
use std::marker::Model;
use std::thread::Threads;

/// A place of a table, and the session that answers lines there. A session never changes its seat: the seat is made
/// with an empty session, and lends it for one line at a time. Only a session that was kept elsewhere may replace it,
/// while it is empty, or a new one that has all work left, when the old one ends.
pub struct Seat {
    place: usize,
    session: Session,
}

// Written by hand, like the drop of the session.
impl Drop for Seat {
    fn drop(self) {
        let Seat { place: _, session } = self;
        drop(session);
    }
}

impl Model for Seat {
    ghost use Rattle.std.specs.Prelude.{◌<◌};
    ghost use Rattle.nesl_house.specs.Register.{Seat};

    ghost Value = { Seat };

    ghost view = { λ s. record { place = s.place; session = s.session } };

    ghost invariant = { λ s. s.place < 64 };
}

/// More lines were recorded at a seat than a new session there could count as cleared.
#[derive(Clone, Copy, PartialEq, Eq, Debug)]
pub struct TooManyLines;

impl Seat {
    /// The seat of a place, with an empty session.
    pub(crate) fn new(alloc: Global, place: usize, limits: Limits) -> Result<Seat, AllocError>
        requires { place < 64 }
        ensures { IfOk result (λ seat. seat ≡ record { place = place; session = empty_log limits }) }
    {
        let session = Session::new(alloc, limits)?;
        Ok(Seat { place, session })
    }

    pub(crate) fn place(&self) -> usize
        ensures place { result ≡ self.now.place }
        ensures in_range { result < 64 }
    {
        self.place
    }

    pub(crate) fn session(&self) -> &Session
        ensures { result.now ≡ self.now.session }
    {
        &self.session
    }

    /// Answers one line of the session, which is evaluated in halves that threads share, where `helpers` are granted.
    /// The call waits for these threads.
    pub(crate) fn line_split<R: Threads + Sync, H: Helpers + Sync, G: Gate + Sync>(
        &mut self,
        rt: &R,
        alloc: Global,
        text: &[u8],
        helpers: &H,
        gate: &G,
    ) -> Answer
        ensures answers { Responds self.old.session text.now result self.new.session }
        ensures place { self.new.place ≡ self.old.place }
    {
        self.session.line_split(rt, alloc, text, helpers, gate)
    }

    /// Ends the session, and begins another one in its place.
    pub(crate) fn renew(&mut self, alloc: Global) -> Result<(), TooManyLines>
        ensures renewed { OnOk result (self.new
            ≡ record { place = self.old.place; session = renewed self.old.session }) }
        ensures refused { OnErr result ((self.new ≡ self.old)
            × (most_recorded < recorded_lines self.old.session)) }
        ensures recorded { recorded_lines self.new.session ≡ recorded_lines self.old.session }
    {
        let cleared = self.session.recorded_lines();
        if cleared > MOST_RECORDED {
            return Err(TooManyLines);
        }
        let limits = self.session.limits();
        self.session = Session::opened(alloc, limits, limits.session_work, cleared);
        Ok(())
    }

    /// The same place with another session.
    pub(crate) fn with_session(self, session: Session) -> Seat
        ensures { result ≡ record { place = self.place; session = session } }
    {
        let Seat { place, session: _ } = self;
        Seat { place, session }
    }

    /// The session, once its seat is no longer needed.
    pub(crate) fn into_session(self) -> Session
        ensures { result ≡ self.session }
    {
        let Seat { place: _, session } = self;
        session
    }
}
