//! Leases and receipts, and tables that are closed.
use crate::sample::{LIMITS, is_reply, roster, said, table};
use nesl_eval_helpers::{Free, NoHelpers};
use nesl_house::lease::{Lease, Receipt};
use nesl_house::table::{CloseFault, Table, TakeFault};
use nesl_session::limits::Limits;
use std::alloc::{AllocError, Global};
use std::sync::Wait;
use std::thread::Threads;

fn receipt_of(place: usize, recorded: u64) -> Receipt {
    Receipt { place, recorded }
}

fn is_as_opened(table: &Table) -> bool {
    table.roster().len() == 2 && table.limits() == LIMITS
}

// Why the user's session isn't given out.
fn refusal<R: Wait>(rt: &R, table: &Table, user: &str) -> Option<TakeFault> {
    match table.take(rt, user.as_bytes()) {
        Ok(lease) => {
            table.give(rt, lease);
            None
        }
        Err(fault) => Some(fault),
    }
}

// How many lines the leased session has stored once it has answered a sum, if it answers it so.
fn stored<R: Threads + Sync>(rt: &R, alloc: Global, lease: &mut Lease) -> Option<usize> {
    let answer = lease.line_split(rt, alloc, b"2 * 3 + 1;", &NoHelpers, &Free);
    if is_reply(answer.bytes(), "it = 7 : int (work 5, depth 5)") {
        Some(lease.session().lines().len())
    } else {
        None
    }
}

#[test]
fn one_lease_at_a_time(rt: HostRuntime) {
    let table = table(rt.alloc()).expect(&rt, "memory");
    let Ok(mut lease) = table.take(&rt, b"bob") else {
        panic!(rt; "bob's session is at home");
    };
    let place = lease.place();
    let busy = refusal(&rt, &table, "bob");
    let stranger = refusal(&rt, &table, "zed");
    let lines = stored(&rt, rt.alloc(), &mut lease);
    let receipt = table.give(&rt, lease);
    let seven = "it; => it = 7 : int (work 1, depth 1)";
    let again = said(&rt, rt.alloc(), &table, "bob", seven);
    let is_refused = busy == Some(TakeFault::Busy) && stranger == Some(TakeFault::NoUser);
    let is_home = refusal(&rt, &table, "bob").is_none() && again == Some(receipt_of(1, 1));
    assert!(rt; place == 1 && lines == Some(1) && receipt == receipt_of(1, 1));
    assert!(rt; is_refused && is_home);
}

// The number of lines of a table that is closed, and of the users of its house.
fn closed(table: Table, receipts: Vec<Receipt>) -> Option<(u128, usize)> {
    let closed = table.close(receipts).ok()?;
    Some((closed.lines, closed.house.users().len()))
}

#[test]
fn not_closed_while_a_lease_is_out(rt: HostRuntime) {
    let table = table(rt.alloc()).expect(&rt, "memory");
    let mut all = Vec::new(rt.alloc());
    let one = "1; => it = 1 : int (work 1, depth 1)";
    let is_added = add_said(&rt, rt.alloc(), &table, one, &mut all);
    let Ok(lease) = table.take(&rt, b"bob") else {
        panic!(rt; "bob's session is at home");
    };
    let Err(
        CloseFault::StillOut {
            table,
            mut receipts,
            place,
        },
    ) = table.close(all)
    else {
        panic!(rt; "bob's session is out");
    };
    let has_all = is_added && receipts.as_slice() == [receipt_of(0, 1)].as_slice();
    let is_given = receipts.push(table.give(&rt, lease)).is_ok();
    assert!(rt; place == 1 && is_as_opened(&table) && has_all && is_given);
    assert!(rt; closed(table, receipts) == Some((1, 2)));
}

// Says lines for ann under one lease, and adds its receipt. Whether they are answered so.
fn add_said<R: Threads + Wait + Sync>(
    rt: &R,
    alloc: Global,
    table: &Table,
    rows: &str,
    receipts: &mut Vec<Receipt>,
) -> bool {
    match said(rt, alloc, table, "ann", rows) {
        Some(receipt) => receipts.push(receipt).is_ok(),
        None => false,
    }
}

#[test]
fn not_closed_without_a_receipt(rt: HostRuntime) {
    let table = table(rt.alloc()).expect(&rt, "memory");
    let mut all = Vec::new(rt.alloc());
    let rows = "x = 3; => x = 3 : int (work 1, depth 1)\nx; => it = 3 : int (work 1, depth 1)";
    let is_added = add_said(&rt, rt.alloc(), &table, rows, &mut all);
    let Err(
        CloseFault::Missing {
            table,
            receipts,
            counted,
            held,
        },
    ) = table.close(Vec::new(rt.alloc()))
    else {
        panic!(rt; "a receipt is missing");
    };
    assert!(rt; is_added && counted == 0 && held == 2 && receipts.is_empty());
    assert!(rt; closed(table, all) == Some((2, 2)));
}

// A table of ann and bob whose sessions have other limits.
fn table_otherwise(alloc: Global) -> Result<Table, AllocError> {
    let names = roster(alloc, "ann bob")?;
    let limits = Limits {
        line_work: 7,
        ..LIMITS
    };
    Table::new(alloc, names.as_slice(), limits)
        .ok()
        .ok_or(AllocError)
}

#[test]
fn a_session_with_other_limits_is_not_given_out(rt: HostRuntime) {
    let here = table(rt.alloc()).expect(&rt, "memory");
    let there = table_otherwise(rt.alloc()).expect(&rt, "memory");
    let Ok(lease) = there.take(&rt, b"ann") else {
        panic!(rt; "ann's session is at home");
    };
    let receipt = here.give(&rt, lease);
    let is_away = refusal(&rt, &there, "ann") == Some(TakeFault::Busy);
    let is_other = refusal(&rt, &here, "ann") == Some(TakeFault::Busy);
    assert!(rt; receipt == receipt_of(0, 0) && is_away && is_other);
}
