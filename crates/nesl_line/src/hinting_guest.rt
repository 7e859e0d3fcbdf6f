//! The user of a connection, with hints below the answers.
ghost use Rattle.std.specs.Prelude.{◌≡◌, false};
ghost use Rattle.nesl_line.specs.Hinted.{WithHints, json_front};
ghost use Rattle.nesl_line.specs.Visiting.{HeardAt, IsKeptAt, Speaks, is_over};

use crate::guest::Guest;
use crate::hearer::{Hearer, Told};
use crate::hinted::{Hinter, hint_on, pending_copy, with_hint};
use crate::keeper::Keeper;
use nesl_house::lease::Lease;
use nesl_session::answer::Answer;
use std::alloc::Global;
use std::sync::Wait;

// What the lines of hints begin with.
const JSON_FRONT: &[u8] = b"{\"hint\": ";

// A guest, and whose hints are put below the answers that are faults.
pub struct HintingGuest<'t, R: Wait, F, K, N> {
    pub guest: Guest<'t, R, F, K>,
    pub hinter: &'t N,
}

impl<R: Wait, F: Fn(Lease, &[u8]) -> (Lease, Answer), K: Keeper, N: Hinter> Hearer
    for HintingGuest<'_, R, F, K, N> {
    type World = K;

    ghost heard = { λ first start now world. WithHints json_front (λ lines answers.
        (now.guest.table.now ≡ first.guest.table.now)
        × HeardAt K.keeps K.leaves K.has_failed start world first.guest.table.now.roster first.guest.table.now.limits
        now.guest.stage lines answers) };

    ghost over = { λ hinting. is_over hinting.guest.stage };

    ghost ready = { λ hinting world. (is_over hinting.guest.stage ≡ false) × Speaks F.Fn hinting.guest.speak
        × IsKeptAt K.keeps world hinting.guest.stage };

    fn hear(&mut self, alloc: Global, world: &mut K, line: &[u8]) -> Told {
        let before = pending_copy(alloc, self.guest.session());
        let told = self.guest.hear(alloc, world, line);
        let hint = hint_on(
            alloc,
            self.hinter,
            self.guest.session(),
            before,
            line,
            &told,
        );
        with_hint(alloc, JSON_FRONT, hint, told)
    }

    fn is_over(&self) -> bool {
        self.guest.is_over()
    }
}
