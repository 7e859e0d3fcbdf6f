//! The session of a user ends, and another one begins in its place.
ghost use Rattle.std.specs.Prelude.{◌≡◌, Err, OnOk};
ghost use Rattle.nesl_session_meaning.specs.State.{Log};
ghost use Rattle.nesl_house.specs.Renewal.{renewed};
ghost use Rattle.nesl_line.specs.Renewing.{IsRenewed};

use crate::keeper::{KeepFault, Keeper, NotTakenUp, TakenUp};
use nesl_house::lease::{Lease, Receipt};
use nesl_house::seat::TooManyLines;
use nesl_house::table::{Table, TakeFault};
use nesl_session::session::Session;
use std::alloc::Global;
use std::sync::Wait;

/// Why no session began in the place of another one.
#[derive(Clone, Copy, PartialEq, Eq, Debug)]
pub enum RenewalFault {
    /// The roster has no such name.
    NoUser,
    /// The seat is away: the user has a connection.
    Busy,
    /// More lines were recorded in the seat than a session may begin with.
    TooManyLines,
    /// The kept session could not be taken up.
    NotTakenUp(KeepFault),
    /// The new session could not be kept. It is in memory, and either of the two may come back.
    NotKept(KeepFault),
}

/// What a renewal did. If the lines of the session that ended were restored before, there is a receipt for them.
#[derive(Clone, Copy, PartialEq, Eq, Debug)]
pub struct Renewal {
    pub restored: Option<Receipt>,
    pub outcome: Result<(), RenewalFault>,
}

impl Renewal {
    // Nothing was done.
    fn refused(fault: RenewalFault) -> Renewal
        ensures { result.outcome ≡ Err fault }
    {
        Renewal {
            restored: None,
            outcome: Err(fault),
        }
    }
}

/// Ends the session of a user whose seat is at home, and begins another one there, with all its work. The lines that
/// were recorded until then stay counted, and no other seat is touched. If sessions are kept, the new one is kept in
/// the place of the old one before the seat is put back.
pub fn renew<R: Wait, K: Keeper>(
    rt: &R,
    alloc: Global,
    table: &Table,
    keeper: &mut K,
    user: &[u8],
) -> Renewal
    ensures { OnOk result.outcome (IsRenewed K.keeps K.leaves keeper.old keeper.new) }
{
    match table.take(rt, user) {
        Ok(lease) => match keeper.take_up(alloc, user, lease) {
            Ok(taken) => {
                let TakenUp { lease, restored } = taken;
                let mut lease = lease;
                let outcome = begin_anew(alloc, &mut lease, keeper);
                table.give(rt, lease);
                Renewal { restored, outcome }
            }
            Err(NotTakenUp { lease, fault }) => {
                table.give(rt, lease);
                Renewal::refused(RenewalFault::NotTakenUp(fault))
            }
        },
        Err(TakeFault::NoUser) => Renewal::refused(RenewalFault::NoUser),
        Err(TakeFault::Busy) => Renewal::refused(RenewalFault::Busy),
    }
}

// Ends the session of a lease, which is kept, and begins another one, which is kept from then on.
fn begin_anew<K: Keeper>(
    alloc: Global,
    lease: &mut Lease,
    keeper: &mut K,
) -> Result<(), RenewalFault>
    requires { K.keeps keeper.old lease.old.seat.session }
    ensures left { OnOk result (K.leaves keeper.old keeper.new lease.old.seat.session
        (renewed lease.old.seat.session)) }
    ensures kept { OnOk result (K.keeps keeper.new (renewed lease.old.seat.session)) }
{
    match lease.renew(alloc) {
        Ok(()) => keep_anew(alloc, lease.session(), keeper),
        Err(TooManyLines) => Err(RenewalFault::TooManyLines),
    }
}

// Keeps the session that began in the place of the one that is kept.
fn keep_anew<K: Keeper>(
    alloc: Global,
    session: &Session,
    keeper: &mut K,
) -> Result<(), RenewalFault>
    requires { (old : Log) × K.keeps keeper.old old × (session.now ≡ renewed old) }
    ensures kept { OnOk result (K.keeps keeper.new session.now) }
    ensures left { (old : Log) → K.keeps keeper.old old → session.now ≡ renewed old
        → K.leaves keeper.old keeper.new old session.now }
{
    match keeper.renew(alloc, session) {
        Ok(()) => Ok(()),
        Err(fault) => Err(RenewalFault::NotKept(fault)),
    }
}
