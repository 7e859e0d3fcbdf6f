//! Turns of a machine's round in columns.
ghost use Rattle.std.specs.Prelude.{◌≡◌, ◌≤◌, Some, IfSome, slice_get};
ghost use Rattle.nesl_eval_rounds.specs.Rounds.{chosen_places};
ghost use Rattle.nesl_eval_machine.specs.Steps.{Advances};

use crate::state::Machine;
use nesl_eval_nodes::held::Tops;
use nesl_eval_nodes::meter::Stop;
use nesl_eval_plain::LEAST;
use nesl_eval_rounds::{Round, Setting, go_to_body, take_in_columns};
use std::alloc::Allocator;

/// The place of a round's next turn, if there is one, and the turns are not first to be tried in columns.
#[inline(always)]
pub(crate) fn place_alone<A: Allocator>(round: &Round<'_, A>) -> Option<usize>
    ensures { IfSome result (λ place. slice_get (chosen_places round.now.chosen) round.now.turns ≡ Some place) }
{
    if round.turns == 0 && round.chosen.places().len() >= LEAST {
        return None;
    }
    round.chosen.at(round.turns)
}

impl<'a, A: Allocator + Copy> Machine<'a, A> {
    // Takes all turns that a round has left in columns, if they can be.
    #[inline(never)]
    fn take_in_columns<T: Tops<A>>(
        &mut self,
        tops: &T,
        round: &mut Box<Round<'a, A>, A>,
    ) -> Result<(), Stop>
        ensures took { Advances (T.table tops.now) self.old result self.new round.old.value round.new.value }
        ensures meter { self.new ≡ record self.old { meter = self.new.meter } }
        ensures spent { self.new.meter.fuel ≤ self.old.meter.fuel }
        ensures depth { self.new.meter.depth ≡ self.old.meter.depth }
    {
        if self.base > self.slots.len() {
            return Ok(());
        }
        let mut fuel = self.meter.fuel();
        let setting = Setting {
            tops: &*tops,
            names: &self.slots[self.base..],
            levels: self.levels,
            alloc: self.alloc,
        };
        let done = take_in_columns(&setting, &mut **round, &mut fuel);
        self.meter.leave(fuel);
        done
    }

    /// Takes all turns of a round in columns that has had none, and has not too few of them, if they can be.
    #[inline(always)]
    pub fn take_new_turns<T: Tops<A>>(
        &mut self,
        tops: &T,
        round: &mut Box<Round<'a, A>, A>,
    ) -> Result<(), Stop>
        ensures took { Advances (T.table tops.now) self.old result self.new round.old.value round.new.value }
        ensures meter { self.new ≡ record self.old { meter = self.new.meter } }
        ensures spent { self.new.meter.fuel ≤ self.old.meter.fuel }
        ensures depth { self.new.meter.depth ≡ self.old.meter.depth }
    {
        if round.turns > 0 || round.chosen.places().len() < LEAST {
            return Ok(());
        }
        self.take_in_columns(tops, round)
    }

    // Takes the turns of a round that has had none in columns, if it is that of a filter.
    #[inline(always)]
    fn take_new_filter<T: Tops<A>>(
        &mut self,
        tops: &T,
        round: &mut Box<Round<'a, A>, A>,
    ) -> Result<(), Stop>
        ensures took { Advances (T.table tops.now) self.old result self.new round.old.value round.new.value }
        ensures meter { self.new ≡ record self.old { meter = self.new.meter } }
        ensures spent { self.new.meter.fuel ≤ self.old.meter.fuel }
        ensures depth { self.new.meter.depth ≡ self.old.meter.depth }
    {
        match round.body {
            Some(_) => self.take_new_turns(tops, round),
            None => Ok(()),
        }
    }

    // Takes the turns of a round that has had none in columns, if it is that of a body.
    #[inline(always)]
    fn take_new_body<T: Tops<A>>(
        &mut self,
        tops: &T,
        round: &mut Box<Round<'a, A>, A>,
    ) -> Result<(), Stop>
        ensures took { Advances (T.table tops.now) self.old result self.new round.old.value round.new.value }
        ensures meter { self.new ≡ record self.old { meter = self.new.meter } }
        ensures spent { self.new.meter.fuel ≤ self.old.meter.fuel }
        ensures depth { self.new.meter.depth ≡ self.old.meter.depth }
    {
        match round.body {
            Some(_) => Ok(()),
            None => self.take_new_turns(tops, round),
        }
    }

    /// Takes all turns in columns of a round that has had none, if they can be. After a filter's last turn the round is
    /// that of its body, and the same is done.
    #[inline(always)]
    pub(crate) fn take_new_rounds<T: Tops<A>>(
        &mut self,
        tops: &T,
        round: &mut Box<Round<'a, A>, A>,
    ) -> Result<(), Stop>
        ensures took { Advances (T.table tops.now) self.old result self.new round.old.value round.new.value }
        ensures meter { self.new ≡ record self.old { meter = self.new.meter } }
        ensures spent { self.new.meter.fuel ≤ self.old.meter.fuel }
        ensures depth { self.new.meter.depth ≡ self.old.meter.depth }
    {
        self.take_new_filter(tops, round)?;
        go_to_body(round, self.meter.fuel(), self.alloc)?;
        self.take_new_body(tops, round)
    }
}
