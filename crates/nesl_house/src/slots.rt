//! Places for seats, each of which is at home or away.
ghost use Rattle.std.specs.Prelude.{◌≡◌, ℕ, ◌+◌, ◌<◌, ◌^◌, IfOk, IfSome, Some, All, length, map, position, slice_get};
ghost use Rattle.std.specs.Prelude.{slice_set, sum_by, false};
ghost use Rattle.std.specs.List.{range_with_len};
ghost use Rattle.std.specs.Option.{IfNone};
ghost use Rattle.nesl_session_meaning.specs.State.{State, recorded_lines};
ghost use Rattle.nesl_session_meaning.specs.Solo.{Replays};
ghost use Rattle.nesl_house.specs.Slots.{counted, counted_at, is_away, opened_at, AreInPlace};

use crate::roster::MOST_USERS;
use crate::seat::Seat;
use nesl_session::limits::Limits;
use std::alloc::{AllocError, Global};
use std::mem;

/// A seat that is at home; or the number of lines that its session had recorded when the seat was taken out.
#[derive(Drop)]
pub enum Slot {
    Home(Seat),
    Away(u64),
}

/// 64 places, and the number of lines that they count together.
#[derive(Drop)]
pub struct Slots {
    pub booked: u128,
    pub slots: Vec<Slot>,
    pub ghost places: { length slots.items ≡ 64 },
    pub ghost in_place: { AreInPlace slots.items },
    pub ghost counted_all: { booked ≡ sum_by counted slots.items },
    pub ghost small: { All (λ slot. counted slot < 2 ^ 64) slots.items },
}

impl Slots {
    /// The seats of all places, with empty sessions of these limits.
    pub fn new(alloc: Global, limits: Limits) -> Result<Slots, AllocError>
        ensures slots { IfOk result (λ s. s.slots.items ≡ map (opened_at limits) (range_with_len 0 64)) }
        ensures booked { IfOk result (λ s. s.booked ≡ 0) }
    {
        let mut slots = Vec::with_capacity(alloc, MOST_USERS)?;
        for place in 0..MOST_USERS {
            let seat = Seat::new(alloc, place, limits)?;
            slots.push_reserved(Slot::Home(seat));
        }
        Ok(Slots { booked: 0, slots })
    }

    /// The first place whose seat is away.
    pub fn first_away(&self) -> Option<usize>
        ensures { result ≡ position is_away self.now.slots.items }
    {
        self.slots.iter().position(Slot::is_away)
    }

    /// Takes out the seat of a place. From then on, the place counts the lines that the session has recorded so far.
    pub fn take_out(&mut self, place: usize) -> Option<Seat>
        requires { place < 64 }
        ensures away { IfNone result ((count : ℕ) × (slice_get self.old.slots.items place ≡ Some (Slot.Away count))) }
        ensures none { IfNone result (self.new ≡ self.old) }
        ensures home { IfSome result (λ seat. slice_get self.old.slots.items place ≡ Some (Slot.Home seat)) }
        ensures some { IfSome result (λ seat. self.new.slots.items
            ≡ slice_set self.old.slots.items place (Slot.Away (recorded_lines seat.session))) }
        ensures booked { self.new.booked ≡ self.old.booked }
    {
        let slot = &mut self.slots[place];
        match slot {
            Slot::Away(_) => None,
            Slot::Home(seat) => {
                let away = Slot::Away(seat.session().recorded_lines());
                match mem::replace(slot, away) {
                    Slot::Home(seat) => Some(seat),
                    Slot::Away(_) => unreachable!(),
                }
            }
        }
    }

    /// Puts a seat back to its place, which counts the lines of this session from then on, and its old count no longer.
    pub fn put_back(&mut self, seat: Seat)
        ensures slots { self.new.slots.items ≡ slice_set self.old.slots.items seat.place (Slot.Home seat) }
        ensures booked { self.new.booked + counted_at self.old.slots.items seat.place
            ≡ self.old.booked + recorded_lines seat.session }
    {
        let Slots { booked, slots } = self;
        let slot = &mut slots[seat.place()];
        let had = slot.counted();
        let has = seat.session().recorded_lines();
        *slot = Slot::Home(seat);
        *booked = *booked - u128::from(had) + u128::from(has);
    }
}

impl Slot {
    /// The number of lines that the slot counts.
    pub fn counted(&self) -> u64
        ensures { result ≡ counted self.now }
    {
        match self {
            Slot::Home(seat) => seat.session().recorded_lines(),
            Slot::Away(count) => *count,
        }
    }

    /// The seat, which is at home. Its session is the replay of the lines that it stored.
    pub(crate) fn into_seat(self) -> Seat
        requires { is_away self ≡ false }
        ensures home { self ≡ Slot.Home result }
        ensures replayed { (state : State) × Replays result.session state }
    {
        match self {
            Slot::Home(seat) => {
                let _ = seat.session().lines();
                seat
            }
            Slot::Away(_) => unreachable!(),
        }
    }

    pub fn is_away(&self) -> bool
        ensures { result ≡ is_away self.now }
    {
        match self {
            Slot::Home(_) => false,
            Slot::Away(_) => true,
        }
    }
}
