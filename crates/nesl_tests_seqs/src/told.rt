//! The results of functions, and what the rows say of them.
use crate::reading::{function_of, value_of};
use nesl_scalars::Trap;
use nesl_seqs::{Argument, Price, SeqFn, apply, cost_and_size, plan};
use nesl_values::Value;
use std::alloc::{AllocError, Allocator, Global};
use std::test::Fail;

/// More than any price of the tests.
pub const ENOUGH: u128 = 1 << 100;

pub fn price_of(work: u128, depth: u64, nodes: u128) -> Price {
    Price { work, depth, nodes }
}

/// The price of the function at the argument, if its work is at most the limit.
pub fn price_within<A: Allocator>(
    function: SeqFn,
    argument: Argument<'_, A>,
    limit: u128,
) -> Result<Option<Price>, Trap> {
    let plan = plan(function, argument)?;
    Ok(plan.price(limit))
}

// Whether the function has that result at that price, at the argument and at its parts.
pub fn gives(
    alloc: Global,
    function: SeqFn,
    argument: &Value,
    expected: &Value,
    price: Price,
) -> Result<bool, AllocError> {
    let mut given = gives_at(alloc, function, Argument::One(argument), expected, price)?;
    if let Some((first, second)) = argument.as_pair() {
        given &= gives_at(
            alloc,
            function,
            Argument::Two(first, second),
            expected,
            price,
        )?;
        if let Some((second, third)) = second.as_pair() {
            let parts = Argument::Three(first, second, third);
            given &= gives_at(alloc, function, parts, expected, price)?;
        }
    }
    Ok(given)
}

fn gives_at(
    alloc: Global,
    function: SeqFn,
    argument: Argument<'_>,
    expected: &Value,
    price: Price,
) -> Result<bool, AllocError> {
    match plan(function, argument) {
        Ok(plan) => Ok(plan.price(2_000_000) == Some(price) && plan.build(alloc)?.same(expected)),
        Err(_) => Ok(false),
    }
}

/// The result of the function, unless it refuses the argument.
pub fn applied<A: Allocator + Copy>(
    home: A,
    function: SeqFn,
    argument: Argument<'_, A>,
) -> Result<Option<Value<A>>, AllocError> {
    match cost_and_size(function, argument) {
        Ok(_) => Ok(Some(apply(home, function, argument)?)),
        Err(_) => Ok(None),
    }
}

/// Whether a value is the one of that text.
pub fn is_value<A: Allocator>(
    alloc: Global,
    value: &Value<A>,
    text: &str,
) -> Result<bool, AllocError> {
    match value_of(alloc, text, 15)? {
        Some(expected) => Ok(value.same(&expected)),
        None => Ok(false),
    }
}

// Whether the function has that fault, at the argument and at its parts.
pub fn traps(function: SeqFn, argument: &Value, trap: Trap) -> bool {
    let mut trapped = traps_at(function, Argument::One(argument), trap);
    if let Some((first, second)) = argument.as_pair() {
        trapped &= traps_at(function, Argument::Two(first, second), trap);
        if let Some((second, third)) = second.as_pair() {
            trapped &= traps_at(function, Argument::Three(first, second, third), trap);
        }
    }
    trapped
}

fn traps_at(function: SeqFn, argument: Argument<'_>, trap: Trap) -> bool {
    match price_within(function, argument, 2_000_000) {
        Ok(_) => false,
        Err(found) => found == trap,
    }
}

// Whether there is a price just within that work, and none below.
fn stops_below(function: SeqFn, argument: &Value, work: u128) -> bool {
    let argument = Argument::One(argument);
    let Some(less) = work.checked_sub(1) else {
        return false;
    };
    matches!(price_within(function, argument, work), Ok(Some(_)))
        && price_within(function, argument, less) == Ok(None)
}

// Whether a price is the one that a row has: the work, the depth and the nodes.
fn is_price(alloc: Global, price: Price, wanted: &str) -> Result<bool, AllocError> {
    let (work, depth, nodes) = (price.work, price.depth, price.nodes);
    Ok(format!(in alloc; "{work} {depth} {nodes}")?.as_str() == wanted)
}

// Whether the function has that result at that price, and none below its work.
fn comes_to(
    alloc: Global,
    function: SeqFn,
    argument: &Value,
    expected: &Value,
    wanted: &str,
) -> Result<bool, AllocError> {
    let Ok(price) = cost_and_size(function, Argument::One(argument)) else {
        return Ok(false);
    };
    Ok(
        is_price(alloc, price, wanted)?
            && gives(alloc, function, argument, expected, price)?
            && stops_below(function, argument, price.work),
    )
}

/// Whether a fault has this name.
pub fn is_named(alloc: Global, trap: Trap, name: &str) -> Result<bool, AllocError> {
    Ok(format!(in alloc; "{trap:?}")?.as_str() == name)
}

// Whether the function has the fault of that name, whatever the limit.
fn is_refused(
    alloc: Global,
    function: SeqFn,
    argument: &Value,
    name: &str,
) -> Result<bool, AllocError> {
    let Err(trap) = cost_and_size(function, Argument::One(argument)) else {
        return Ok(false);
    };
    Ok(
        is_named(alloc, trap, name)?
            && traps(function, argument, trap)
            && price_within(function, Argument::One(argument), 0) == Err(trap),
    )
}

// Whether the function has some fault.
fn is_no_argument(function: SeqFn, argument: &Value) -> bool {
    price_within(function, Argument::One(argument), 1_000_000).is_err()
}

// Whether what follows the sign of a row holds.
fn is_so(
    alloc: Global,
    function: SeqFn,
    argument: &Value,
    sign: &str,
    wanted: &str,
) -> Result<bool, AllocError> {
    if sign == " ! " {
        if wanted == "some" {
            return Ok(is_no_argument(function, argument));
        }
        return is_refused(alloc, function, argument, wanted);
    }
    let Some((result, price)) = wanted.split_once(" : ") else {
        return Ok(false);
    };
    match value_of(alloc, result, 15)? {
        Some(expected) => comes_to(alloc, function, argument, &expected, price),
        None => Ok(false),
    }
}

// The function of a row, its argument, and what follows the sign.
fn call_of<'a>(row: &'a str, sign: &str) -> Option<(SeqFn, &'a str, &'a str)> {
    let (call, wanted) = row.split_once(sign)?;
    let (name, argument) = call.split_once(' ')?;
    Some((function_of(name)?, argument, wanted))
}

// Whether a row holds, in each of the sixteen ways to pack the first four sequences of its argument.
fn holds(alloc: Global, row: &str) -> Result<bool, AllocError> {
    let sign = if row.contains(" = ") { " = " } else { " ! " };
    let Some((function, argument, wanted)) = call_of(row, sign) else {
        return Ok(false);
    };
    for packed in 0..16 {
        let Some(argument) = value_of(alloc, argument, packed)? else {
            return Ok(false);
        };
        if !is_so(alloc, function, &argument, sign, wanted)? {
            return Ok(false);
        }
    }
    Ok(true)
}

/// Fails at the first row that doesn't hold. A row is `NAME ARGUMENT = RESULT : WORK DEPTH NODES`, or
/// `NAME ARGUMENT ! FAULT`, where the fault `some` is any. A line `% TEXT` is a title.
pub fn all_hold(alloc: Global, rows: &str) -> Result<(), Fail> {
    for row in rows.lines() {
        if !row.starts_with('%') && !holds(alloc, row)? {
            return Err(Fail::new(row));
        }
    }
    Ok(())
}
