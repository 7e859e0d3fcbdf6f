//! Functions in heaps: their arguments and results lie there, and nothing of them stays.
use crate::reading::{function_of, value_of};
use crate::told::{applied, is_value};
use linked_list_allocator::LocalHeap;
use nesl_seqs::{Argument, SeqFn};
use nesl_values::Value;
use std::alloc::{AllocError, Allocator, Global};
use std::test::Fail;

/// Calls and their results.
const ROWS: &str = r#"permute of ( [5,6] [1,0] ) = [6,5]
gather of ( [5,6] [1,0] ) = [6,5]
rep of ( [5,6] ( 9 0 ) ) = [9,6]
zip of ( [1,0] [5,6] ) = < ( 1 5 ) ( 0 6 ) >
write of ( [1,0] < ( 1 5 ) ( 0 6 ) > ) = [6,5]
gather of ( < ( 1 5 ) ( 0 6 ) > [1,0] ) = < ( 0 6 ) ( 1 5 ) >
unzip of < ( 0 6 ) ( 1 5 ) > = ( [0,1] [6,5] )
eql of ( < ( 1 5 ) ( 0 6 ) > < ( 0 6 ) ( 1 5 ) > ) = F
element_at of ( < ( 1 5 ) ( 0 6 ) > 1 ) = ( 0 6 )
take of ( [4,5,6,7] 1 ) = [4]
drop of ( [4,5,6,7] 1 ) = [5,6,7]
rotate of ( [4,5,6,7] 1 ) = [7,4,5,6]
reverse of [4,5,6,7] = [7,6,5,4]
even_elts of [4,5,6,7] = [4,6]
odd_elts of [4,5,6,7] = [5,7]
append of ( [5,7] [4,6] ) = [5,7,4,6]
interleave of ( [4,6] [5,7] ) = [4,5,6,7]
bottop of [4,5,6,7] = < [4,5] [6,7] >
flatten of < [4,5] [6,7] > = [4,5,6,7]
partition of ( [4,5,6,7] [2,2] ) = < [4,5] [6,7] >
split of ( [4,5,6,7] {FFTT} ) = < [4,5] [6,7] >
range_by of ( 2 ( 7 3 ) ) = [2,5]
range of ( 2 3 ) = [2]
index of 3 = [0,1,2]
dist of ( 7 2 ) = [7,7]
dist of ( [5,6] 2 ) = < [5,6] [5,6] >
flatten of < [5,6] [5,6] > = [5,6,5,6]
plus_scan of [5,6] = [0,5]
or_scan of [5,6] = [0,5]
and_scan of [5,6] = [-1,5]
or_scan of {TF} = {FT}"#;

/// Calls one after the other, each of what the one before it gave, and the result of the last one.
const CHAINS: &str = r#"bottop flatten reverse plus_scan of [4,5,6,7] = [0,7,13,18]
zip reverse unzip append odd_elts of ( [1,2] [5,6] ) = [1,5]
append bottop unzip of ( [4,6] [5,7] ) = none
interleave bottop reverse flatten even_elts of ( [4,6] [5,7] ) = [6,4]"#;

/// The result of the function at the parts of an argument, if it has a price.
fn at_parts<A: Allocator + Copy>(
    home: A,
    function: SeqFn,
    argument: &Value<A>,
) -> Result<Option<Value<A>>, AllocError> {
    let Some((first, second)) = argument.as_pair() else {
        return applied(home, function, Argument::One(argument));
    };
    match second.as_pair() {
        Some((second, third)) => applied(home, function, Argument::Three(first, second, third)),
        None => applied(home, function, Argument::Two(first, second)),
    }
}

/// The result of the function of that name.
fn called<A: Allocator + Copy>(
    home: A,
    name: &str,
    argument: &Value<A>,
) -> Result<Option<Value<A>>, AllocError> {
    match function_of(name) {
        Some(function) => at_parts(home, function, argument),
        None => Ok(None),
    }
}

/// The result of the functions, each of what the one before it gave.
fn chained<A: Allocator + Copy>(
    home: A,
    names: &str,
    argument: &Value,
) -> Result<Option<Value<A>>, AllocError> {
    let mut value = argument.copy_into(home)?;
    for name in names.split(' ') {
        match called(home, name, &value)? {
            Some(next) => value = next,
            None => return Ok(None),
        }
    }
    Ok(Some(value))
}

/// Whether a row holds in the heap. Where it may be refused for want of memory there, it then holds.
fn holds_in(
    alloc: Global,
    heap: &LocalHeap,
    row: &str,
    may_be_refused: bool,
) -> Result<bool, AllocError> {
    let (calls, result) = row.split_once(" = ").unwrap_or((row, ""));
    let (names, argument) = calls.split_once(" of ").unwrap_or((calls, ""));
    let Some(argument) = value_of(alloc, argument, 15)? else {
        return Ok(false);
    };
    match chained(heap, names, &argument) {
        Ok(Some(found)) => is_value(alloc, &found, result),
        Ok(None) => Ok(result == "none"),
        Err(_) => Ok(may_be_refused),
    }
}

/// Fails at the first row that doesn't hold in a heap of this many bytes, or leaves something there.
fn all_hold_in(alloc: Global, rows: &str, size: usize, may_be_refused: bool) -> Result<(), Fail> {
    let heap = LocalHeap::new(alloc, size)?;
    for row in rows.lines() {
        if !holds_in(alloc, &heap, row, may_be_refused)? || heap.used() != 0 {
            return Err(Fail::new(row));
        }
    }
    Ok(())
}

#[test]
fn in_a_heap(rt: HostRuntime) -> Result<(), Fail> {
    all_hold_in(rt.alloc(), ROWS, 65_536, false)?;
    all_hold_in(rt.alloc(), CHAINS, 65_536, false)
}

// Where each call is in heaps of every size, each of its allocations is refused in one.
#[test]
fn small_heaps_refuse(rt: HostRuntime) -> Result<(), Fail> {
    for size in 1..256 {
        all_hold_in(rt.alloc(), ROWS, 16 * size, true)?;
    }
    Ok(())
}
