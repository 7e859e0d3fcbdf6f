//! Notes whose seat a connection has.

use crate::streams::{Listed, Streams};
use nesl_house::lease::Lease;
use nesl_line::keeper::{KeepFault, Keeper, Mark, NotTakenUp, TakenUp};
use nesl_session::session::Session;
use std::alloc::Global;
use std::sync::Wait;

/// A keeper by which it is noted whose seat a listed connection has, so that an operator can end it. It keeps what the
/// inner keeper keeps.
#[derive(Drop)]
pub(crate) struct SeatedKeeper<'x, K, R> {
    pub(crate) keeper: K,
    pub(crate) rt: &'x R,
    pub(crate) streams: &'x Streams,
    pub(crate) listed: Option<Listed>,
}

impl<K, R: Wait> SeatedKeeper<'_, K, R> {
    // Notes the seat of a session that was taken up.
    fn note(&self, taken: &TakenUp) {
        if let Some(listed) = self.listed {
            self.streams.note(self.rt, listed, taken.lease.place());
        }
    }
}

impl<K: Keeper, R: Wait> Keeper for SeatedKeeper<'_, K, R> {
    ghost keeps = { λ k log. K.keeps k.keeper log };

    ghost leaves = { λ old new was is. K.leaves old.keeper new.keeper was is };

    ghost has_failed = { λ k. K.has_failed k.keeper };

    fn take_up(&mut self, alloc: Global, user: &[u8], lease: Lease) -> Result<TakenUp, NotTakenUp> {
        let taken = self.keeper.take_up(alloc, user, lease);
        if let Ok(taken) = &taken {
            self.note(taken);
        }
        taken
    }

    fn keep(
        &mut self,
        alloc: Global,
        line: &[u8],
        was: Mark,
        session: &Session,
    ) -> Result<(), KeepFault> {
        self.keeper.keep(alloc, line, was, session)
    }

    fn renew(&mut self, alloc: Global, session: &Session) -> Result<(), KeepFault> {
        self.keeper.renew(alloc, session)
    }
}
