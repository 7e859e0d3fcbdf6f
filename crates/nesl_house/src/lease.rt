//! A seat that is taken out of the table.
ghost use Rattle.std.specs.Prelude.{◌≡◌, ◌+◌, ◌<◌, OnErr, OnOk};
ghost use Rattle.nesl_session_meaning.specs.State.{empty_log, recorded_lines};
ghost use Rattle.nesl_session_meaning.specs.Step.{most_recorded};
ghost use Rattle.nesl_session_meaning.specs.Solo.{Responds};
ghost use Rattle.nesl_house.specs.Renewal.{renewed};

use crate::seat::{Seat, TooManyLines};
use nesl_eval_helpers::{Gate, Helpers};
use nesl_session::answer::Answer;
use nesl_session::laws::recorded_lines_grow;
use nesl_session::session::Session;
use std::alloc::Global;
use std::marker::Model;
use std::thread::Threads;

/// A seat that was taken out of a table; `give` puts it back. Contracts see the seat, and the number of lines that its
/// session had recorded when the seat was taken out.
pub struct Lease {
    seat: Seat,
    counted: u64,
}

impl Model for Lease {
    ghost use Rattle.std.specs.Prelude.{◌≤◌};
    ghost use Rattle.nesl_session_meaning.specs.State.{recorded_lines};
    ghost use Rattle.nesl_house.specs.Register.{Leased};

    ghost Value = { Leased };

    ghost view = { λ l. record { seat = l.seat; counted = l.counted } };

    ghost invariant = { λ l. l.counted ≤ recorded_lines l.seat.session };
}

/// The number of lines that the session of a place recorded under a lease.
#[derive(Clone, Copy, PartialEq, Eq, Debug)]
pub struct Receipt {
    pub place: usize,
    pub recorded: u64,
}

/// A lease of a session that was kept elsewhere, and a receipt for the lines that it had recorded there.
pub struct Resumed {
    pub lease: Lease,
    pub restored: Receipt,
}

impl Lease {
    /// A lease of a seat that was taken out.
    pub(crate) fn new(seat: Seat) -> Lease
        ensures { result ≡ record { seat = seat; counted = recorded_lines seat.session } }
    {
        let counted = seat.session().recorded_lines();
        Lease { seat, counted }
    }

    /// The place that the seat was taken from.
    pub fn place(&self) -> usize
        ensures { result ≡ self.now.seat.place }
    {
        self.seat.place()
    }

    pub fn session(&self) -> &Session
        ensures { result.now ≡ self.now.seat.session }
    {
        self.seat.session()
    }

    /// Answers one line of the session, which is evaluated in halves that threads share, where `helpers` are granted.
    /// The call waits for these threads. A session that is taken out is changed by this call, by `renew`, and where a
    /// kept session comes back.
    pub fn line_split<R: Threads + Sync, H: Helpers + Sync, G: Gate + Sync>(
        &mut self,
        rt: &R,
        alloc: Global,
        text: &[u8],
        helpers: &H,
        gate: &G,
    ) -> Answer
        ensures answers { Responds self.old.seat.session text.now result self.new.seat.session }
        ensures kept { (self.new.seat.place ≡ self.old.seat.place) × (self.new.counted ≡ self.old.counted) }
    {
        recorded_lines_grow();
        self.seat.line_split(rt, alloc, text, helpers, gate)
    }

    /// Replaces an empty session by one that was kept elsewhere. The table counts its lines from now on. The receipt is
    /// for them.
    pub fn resume(self, session: Session) -> Resumed
        requires { self.seat.session ≡ empty_log session.limits }
        ensures lease { result.lease ≡ record {
          seat = record { place = self.seat.place; session = session };
          counted = recorded_lines session;
        } }
        ensures place { result.restored.place ≡ self.seat.place }
        ensures restored { result.restored.recorded + self.counted ≡ recorded_lines session }
    {
        let Lease { seat, counted: _ } = self;
        let restored = Receipt {
            place: seat.place(),
            recorded: session.recorded_lines(),
        };
        let lease = Lease::new(seat.with_session(session));
        Resumed { lease, restored }
    }

    /// Ends the session, and begins another one in its place. The lines recorded until then stay counted, and the
    /// receipt of this lease is for those that came under it, as before. Nothing changes if they are too many.
    pub fn renew(&mut self, alloc: Global) -> Result<(), TooManyLines>
        ensures renewed { OnOk result (self.new ≡ record {
          seat = record { place = self.old.seat.place; session = renewed self.old.seat.session };
          counted = self.old.counted;
        }) }
        ensures refused { OnErr result ((self.new ≡ self.old)
            × (most_recorded < recorded_lines self.old.seat.session)) }
    {
        self.seat.renew(alloc)
    }

    /// The seat, and the receipt for the lines that its session has recorded since the seat was taken out.
    pub(crate) fn end(self) -> (Seat, Receipt)
        ensures seat { result.0 ≡ self.seat }
        ensures place { result.1.place ≡ self.seat.place }
        ensures recorded { result.1.recorded + self.counted ≡ recorded_lines self.seat.session }
    {
        let Lease { seat, counted } = self;
        let place = seat.place();
        let recorded = seat.session().recorded_lines() - counted;
        (seat, Receipt { place, recorded })
    }
}
