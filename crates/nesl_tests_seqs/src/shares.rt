//! Elements that are shared, and not copied.
use crate::told::{ENOUGH, applied, price_within};
use nesl_seqs::{Argument, SeqFn};
use nesl_values::Value;
use std::alloc::{AllocError, Global};
use std::test::Fail;

// A pair of the same two, and so on: 2^41 - 1 nodes, of which 41 are held.
fn doubled(alloc: Global) -> Result<Value, AllocError> {
    let mut value = Value::Int(1);
    for _time in 0..40 {
        let other = value.share()?;
        value = Value::pair(alloc, value, other)?;
    }
    Ok(value)
}

// Whether the price has that work, and knows the nodes of the result.
fn is_priced(function: SeqFn, argument: Argument<'_>, nodes: u64, work: u128) -> bool {
    match price_within(function, argument, ENOUGH) {
        Ok(Some(price)) => price.work == work && price.nodes == u128::from(nodes),
        Ok(None) | Err(_) => false,
    }
}

// Whether the result has this many nodes, and takes that work.
fn has_size(
    alloc: Global,
    function: SeqFn,
    argument: Argument<'_>,
    (nodes, work): (u64, u128),
) -> Result<bool, AllocError> {
    match applied(alloc, function, argument)? {
        Some(value) => Ok(value.nodes() == nodes && is_priced(function, argument, nodes, work)),
        None => Ok(false),
    }
}

const NODES: u64 = 2_199_023_255_551;

// Three times the value, in a sequence.
const THRICE: (u64, u128) = (6_597_069_766_654, 6_597_069_766_657);

// Whether these functions of two such sequences have results of the sizes that they should have.
fn are_joined(alloc: Global, three: &Value) -> Result<bool, AllocError> {
    let twice = Argument::Two(three, three);
    let all = (13_194_139_533_307, 13_194_139_533_313);
    let pairs = (13_194_139_533_310, 13_194_139_533_316);
    Ok(
        has_size(alloc, SeqFn::Append, twice, all)?
            && has_size(alloc, SeqFn::Interleave, twice, all)?
            && has_size(alloc, SeqFn::Zip, twice, pairs)?,
    )
}

// Whether functions that move elements, and those of one element, have results of the sizes that they should have.
fn are_moved(alloc: Global, three: &Value, value: &Value) -> Result<bool, AllocError> {
    let rotated = Argument::Two(three, &Value::Int(1));
    let third = Argument::Two(three, &Value::Int(2));
    let first = Argument::Three(three, value, &Value::Int(0));
    let one = (NODES, u128::from(NODES));
    Ok(
        has_size(alloc, SeqFn::Reverse, Argument::One(three), THRICE)?
            && has_size(alloc, SeqFn::Rotate, rotated, THRICE)?
            && has_size(alloc, SeqFn::ElementAt, third, one)?
            && has_size(alloc, SeqFn::Rep, first, THRICE)?,
    )
}

// Whether functions of three times the value, in a sequence, have results of the sizes that they should have.
fn are_all_shared(alloc: Global, value: &Value) -> Result<bool, AllocError> {
    let thrice = Argument::Two(value, &Value::Int(3));
    let Some(three) = applied(alloc, SeqFn::Dist, thrice)? else {
        return Ok(false);
    };
    Ok(
        is_priced(SeqFn::Dist, thrice, three.nodes(), 6_597_069_766_654)
            && are_joined(alloc, &three)?
            && are_moved(alloc, &three, value)?,
    )
}

#[test]
fn elements_are_not_copied(rt: HostRuntime) -> Result<(), Fail> {
    let value = doubled(rt.alloc())?;
    assert!(rt; value.nodes() == NODES && are_all_shared(rt.alloc(), &value)?);
    Ok(())
}
