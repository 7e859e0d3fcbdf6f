//! Elements at places that numbers tell.
use crate::told::{gives, price_of, price_within, traps};
use nesl_scalars::Trap;
use nesl_seqs::{Argument, SeqFn};
use nesl_values::Value;
use std::alloc::{AllocError, Global};
use std::test::Fail;

pub const ROWS: &str = r#"% Elements at indices
gather ( [10,20,30] [2,0,0] ) = [30,10,10] : 10 1 4
gather ( [7] [0] ) = [7] : 4 1 2
gather ( [] [] ) = [] : 1 1 1
gather ( "abc" [2,2,1] ) = "ccb" : 10 1 4
gather ( {TF} [1,0,1] ) = {FTF} : 9 1 4
gather ( < "a" "bcd" "ef" > [1,0] ) = < "bcd" "a" > : 12 1 7
% Indices out of range
gather ( [10,20] [0,2] ) ! Range
gather ( [10,20] [0,-1] ) ! Range
gather ( [10,20] [0,MIN] ) ! Range
gather ( [10,20] [0,MAX] ) ! Range
gather ( < > [0] ) ! Range
% Elements at their indices
permute ( [7,8] [1,0] ) = [8,7] : 7 1 3
permute ( [7] [0] ) = [7] : 4 1 2
permute ( [] [] ) = [] : 1 1 1
permute ( "abc" [1,2,0] ) = "cab" : 10 1 4
permute ( < "a" "bcd" "ef" > [2,0,1] ) = < "bcd" "ef" "a" > : 16 1 10
% Indices that are no permutation
permute ( [7,8] [0,0] ) ! Permutation
permute ( [7,8] [3] ) ! Length
permute ( [7,8,9] [0,0,3] ) ! Range
% Numbers that are written
write ( [0,0,0] < ( 1 5 ) ( 1 7 ) > ) = [0,7,0] : 9 1 4
write ( [1] < ( 0 9 ) > ) = [9] : 4 1 2
write ( [1,2] [] ) = [1,2] : 5 1 3
write ( [] [] ) = [] : 1 1 1
% Texts that are written
write ( < "a" "bcd" "ef" > < ( 0 "xyz" ) ( 2 < > ) ( 0 "uv" ) > ) = < "uv" "bcd" < > > : 15 1 9
write ( "abc" < ( 1 'z ) > ) = "azc" : 8 1 4
write ( {TF} < ( 0 F ) ( 1 T ) > ) = {FT} : 7 1 3
% Writes out of range
write ( [1,2] < ( 0 5 ) ( 2 0 ) > ) ! Range
write ( [1,2] < ( 0 5 ) ( -1 0 ) > ) ! Range
write ( [1,2] < ( 0 5 ) ( MIN 0 ) > ) ! Range
write ( [1,2] < ( 0 5 ) ( MAX 0 ) > ) ! Range
write ( < > < ( 0 0 ) > ) ! Range"#;

// Which numbers a long sequence has.
#[derive(Clone, Copy)]
enum Numbers {
    Zeros,
    // From 0 on.
    Up,
    // From 599,999 down.
    Down,
    // From 0 on, where 599,998 comes in the place of the next one too.
    LastTwice,
}

fn number_at(numbers: Numbers, place: i64) -> i64 {
    match numbers {
        Numbers::Zeros => 0,
        Numbers::Up => place,
        Numbers::Down => 599_999_i64.saturating_sub(place),
        Numbers::LastTwice => place.min(599_998),
    }
}

fn sequence(alloc: Global, numbers: Numbers, len: i64) -> Result<Value, AllocError> {
    let mut items = Vec::new(alloc);
    for place in 0..len {
        items.push(number_at(numbers, place))?;
    }
    Value::ints(alloc, items)
}

fn long_text(alloc: Global) -> Result<Value, AllocError> {
    let mut letters = Vec::new(alloc);
    letters.resize(1_000_000, b'a')?;
    Value::chars(alloc, letters)
}

// A sequence of one long text, and many indices of it.
fn many_copies(alloc: Global) -> Result<Value, AllocError> {
    let mut texts = Vec::new(alloc);
    texts.push(long_text(alloc)?)?;
    let texts = Value::sequence(alloc, texts)?;
    Value::pair(alloc, texts, sequence(alloc, Numbers::Zeros, 100_000)?)
}

#[test]
fn a_price_that_stops(rt: HostRuntime) -> Result<(), Fail> {
    let many = many_copies(rt.alloc())?;
    let price = price_within(SeqFn::Gather, Argument::One(&many), 2_000_000);
    assert!(rt; matches!(price, Ok(None)));
    Ok(())
}

// The numbers from 0 to 599,999, with places for them.
fn with_places(alloc: Global, places: Numbers) -> Result<Value, AllocError> {
    let numbers = sequence(alloc, Numbers::Up, 600_000)?;
    Value::pair(alloc, numbers, sequence(alloc, places, 600_000)?)
}

#[test]
fn places_of_several_windows(rt: HostRuntime) -> Result<(), Fail> {
    let alloc = rt.alloc();
    let turned = with_places(alloc, Numbers::Down)?;
    let expected = sequence(alloc, Numbers::Down, 600_000)?;
    let whole = price_of(1_800_001, 1, 600_001);
    assert!(rt; gives(alloc, SeqFn::Permute, &turned, &expected, whole)?);
    Ok(())
}

#[test]
fn a_place_twice_in_several_windows(rt: HostRuntime) -> Result<(), Fail> {
    let twice = with_places(rt.alloc(), Numbers::LastTwice)?;
    assert!(rt; traps(SeqFn::Permute, &twice, Trap::Permutation));
    Ok(())
}
