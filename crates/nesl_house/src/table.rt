//! The seats of many users, which many threads take out and give back.
ghost use Rattle.std.specs.Prelude.{◌≡◌, ◌+◌, ◌≤◌, ◌<◌, ◌↔◌, [], IfErr, IfOk, IfSome, IsErrOf, None, OnOk, Some};
ghost use Rattle.std.specs.Prelude.{length, map, position};
ghost use Rattle.std.specs.Str.{bytes_eq};
ghost use Rattle.std.specs.Vec.{vec_capacity};
ghost use Rattle.nesl_session_meaning.specs.State.{recorded_lines};
ghost use Rattle.nesl_house.specs.Roster.{IsRefused, IsRoster, place_of};
ghost use Rattle.nesl_house.specs.Slots.{at_home, AreHome};
ghost use Rattle.nesl_house.specs.Runs.{AllReplay};
ghost use Rattle.nesl_house.specs.Table.{recorded_in, seated, AreReplays, IsClosed, HandsBack};

use crate::house::House;
use crate::lease::{Lease, Receipt};
use crate::roster::{MOST_USERS, NewFault, check};
use crate::slots::{Slot, Slots};
use crate::user::User;
use nesl_session::limits::Limits;
use std::alloc::{AllocError, Global};
use std::marker::Model;
use std::sync::{Mutex, Wait};

/// Users, and their seats under a lock. No evaluation holds the lock. Contracts see the roster and the limits.
pub struct Table {
    roster: Vec<Vec<u8>>,
    limits: Limits,
    // Room for the users of the house that a closed table becomes.
    room: Vec<User>,
    slots: Mutex<Slots>,
}

// Written by hand, so that no crate that uses this one has to prove how the parts are dropped.
impl Drop for Table {
    fn drop(self) {
        let Table {
            roster,
            limits: _,
            room,
            slots,
        } = self;
        drop((roster, room, slots));
    }
}

impl Model for Table {
    ghost use Rattle.std.specs.Prelude.{◌≡◌, ◌≤◌, [], length, map};
    ghost use Rattle.std.specs.Vec.{vec_capacity};
    ghost use Rattle.nesl_house.specs.Register.{Register};

    ghost Value = { Register };

    ghost view = { λ t. record { roster = map (λ v. v.items) t.roster.items; limits = t.limits } };

    ghost invariant = { λ t. (length t.roster.items ≤ 64) × (t.room.items ≡ []) × (64 ≤ vec_capacity t.room) };
}

/// Why no lease is given.
#[derive(Clone, Copy, PartialEq, Eq, Debug)]
pub enum TakeFault {
    /// The roster has no such name.
    NoUser,
    /// The seat is away. Or the seat of another table, whose session has other limits, is at its place.
    Busy,
}

/// What a closed table becomes.
#[derive(Drop)]
pub struct Closed {
    /// The users of the roster, each with the session at their place.
    pub house: House,
    /// The number of lines that the sessions of all places have recorded.
    pub lines: u128,
}

/// Why a table isn't closed. The table and the receipts are handed back.
#[derive(Drop)]
pub enum CloseFault {
    /// The seat of this place is away; it is the first such place.
    StillOut {
        table: Table,
        receipts: Vec<Receipt>,
        place: usize,
    },
    /// The receipts are for `counted` lines, but the sessions have recorded `held`.
    Missing {
        table: Table,
        receipts: Vec<Receipt>,
        counted: u128,
        held: u128,
    },
}

impl Table {
    /// A table in which each user of the roster has an empty session with these limits. The roster is checked before
    /// any memory is taken.
    pub fn new(alloc: Global, roster: &[Vec<u8>], limits: Limits) -> Result<Table, NewFault>
        ensures roster { OnOk result (IsRoster (map (λ v. v.items) roster.now)) }
        ensures made { IfOk result (λ t. t ≡ record { roster = map (λ v. v.items) roster.now; limits = limits }) }
        ensures refused { IfErr result (IsRefused (map (λ v. v.items) roster.now)) }
    {
        check(roster)?;
        match Table::open(alloc, roster, limits) {
            Ok(table) => Ok(table),
            Err(_) => Err(NewFault::Memory),
        }
    }

    fn open(alloc: Global, roster: &[Vec<u8>], limits: Limits) -> Result<Table, AllocError>
        requires { length roster.now ≤ 64 }
        ensures { IfOk result (λ t. t ≡ record { roster = map (λ v. v.items) roster.now; limits = limits }) }
    {
        let mut names = Vec::with_capacity(alloc, roster.len())?;
        for name in roster {
            let name = Vec::from_slice(alloc, name.as_slice())?;
            names.push_reserved(name);
        }
        let room = Vec::with_capacity(alloc, MOST_USERS)?;
        let slots = Slots::new(alloc, limits)?;
        Ok(Table {
            roster: names,
            limits,
            room,
            slots: Mutex::new(slots),
        })
    }

    /// The users, in order.
    pub fn roster(&self) -> &[Vec<u8>]
        ensures { map (λ v. v.items) result.now ≡ self.now.roster }
    {
        self.roster.as_slice()
    }

    /// The limits of the sessions.
    pub fn limits(&self) -> Limits
        ensures { result ≡ self.now.limits }
    {
        self.limits
    }

    // The place of a user in the roster.
    fn place_of(&self, user: &[u8]) -> Option<usize>
        ensures place { result ≡ place_of self.now.roster user.now }
        ensures in_range { IfSome result (λ place. place < 64) }
    {
        place_in(self.roster.as_slice(), user)
    }

    /// Takes out the seat of a user, with the session there. The call waits only for the lock. While the seat is away,
    /// the result is `Busy`.
    pub fn take<R: Wait>(&self, rt: &R, user: &[u8]) -> Result<Lease, TakeFault>
        ensures no_user { IsErrOf result TakeFault.NoUser ↔ (place_of self.now.roster user.now ≡ None) }
        ensures place { IfOk result (λ l. place_of self.now.roster user.now ≡ Some l.seat.place) }
        ensures limits { IfOk result (λ l. l.seat.session.limits ≡ self.now.limits) }
        ensures counted { IfOk result (λ l. l.counted ≡ recorded_lines l.seat.session) }
    {
        let Some(place) = self.place_of(user) else {
            return Err(TakeFault::NoUser);
        };
        let mut slots = self.slots.lock(rt);
        match slots.take_out(place) {
            None => Err(TakeFault::Busy),
            Some(seat) if seat.session().limits() != self.limits => {
                slots.put_back(seat);
                Err(TakeFault::Busy)
            }
            Some(seat) => Ok(Lease::new(seat)),
        }
    }

    /// Puts a seat back to its place, and returns the number of lines that its session recorded under the lease.
    pub fn give<R: Wait>(&self, rt: &R, lease: Lease) -> Receipt
        ensures place { result.place ≡ lease.seat.place }
        ensures recorded { result.recorded + lease.counted ≡ recorded_lines lease.seat.session }
    {
        let (seat, receipt) = lease.end();
        self.slots.lock(rt).put_back(seat);
        receipt
    }

    /// Makes a house of the table's users, each with the session of the seat at their place. All seats have to be at
    /// home, and the receipts have to be for all lines. Sessions past the roster are dropped, but their lines are
    /// counted. They are empty unless another table's lease was given back.
    pub fn close(self, receipts: Vec<Receipt>) -> Result<Closed, CloseFault>
        ensures receipts { IfOk result (λ c. c.lines ≡ recorded_in receipts.items) }
        ensures closed { IfOk result (λ c. IsClosed self.roster c.house c.lines) }
        ensures refused { IfErr result (HandsBack self receipts.items) }
    {
        let Table {
            roster,
            limits,
            room,
            slots,
        } = self;
        let slots = slots.into_inner();
        if let Some(place) = slots.first_away() {
            let table = Table {
                roster,
                limits,
                room,
                slots: Mutex::new(slots),
            };
            return Err(CloseFault::StillOut {
                table,
                receipts,
                place,
            });
        }
        let counted = recorded_in(receipts.as_slice());
        let held = slots.booked;
        if counted != held {
            let table = Table {
                roster,
                limits,
                room,
                slots: Mutex::new(slots),
            };
            return Err(CloseFault::Missing {
                table,
                receipts,
                counted,
                held,
            });
        }
        Ok(Closed {
            house: House::of(seated(roster, slots.slots, room)),
            lines: counted,
        })
    }
}

// The place of this name in the roster.
fn place_in(roster: &[Vec<u8>], user: &[u8]) -> Option<usize>
    ensures { result ≡ position (λ v. bytes_eq v.items user.now) roster.now }
{
    roster.iter().position(|name| name.as_slice() == user)
}

// The number of lines that these receipts are for.
fn recorded_in(receipts: &[Receipt]) -> u128
    ensures { result ≡ recorded_in receipts.now }
{
    let mut sum = 0u128;
    for receipt in receipts {
        sum += u128::from(receipt.recorded);
    }
    sum
}

// The users of a roster, each with the session of the seat at their place. There is room for them.
fn seated(roster: Vec<Vec<u8>>, slots: Vec<Slot>, room: Vec<User>) -> Vec<User>
    requires home { AreHome slots.items }
    requires count { length roster.items ≤ 64 }
    requires room { (room.items ≡ []) × (64 ≤ vec_capacity room) }
    ensures users { result.items ≡ seated (map (λ v. v.items) roster.items) (at_home slots.items) }
    ensures replayed { AllReplay result.items }
    ensures held { AreReplays (at_home slots.items) }
{
    let mut users = room;
    let mut names = roster.into_iter();
    for slot in slots {
        let seat = slot.into_seat();
        if let Some(name) = names.next() {
            users.push_reserved(User::of(name, seat.into_session()));
        }
    }
    users
}
