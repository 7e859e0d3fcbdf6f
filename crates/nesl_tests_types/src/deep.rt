//! Types of many levels, on a thread whose stack has 64 KiB.

use indexmap::IndexSet;
use nesl_types::{Context, type_text};
use nesl_types_shared::{Bank, Shape, Ty, rename, rename_type, variables};
use std::alloc::{AllocError, Global};
use std::thread::Builder;

const STACK: usize = 64 << 10;

/// Puts the sequences of the type at a place.
fn put_sequences(bank: &mut Bank, place: usize) -> Result<usize, AllocError> {
    if place < bank.len() {
        bank.put(Shape::SeqOf(place))
    } else {
        Err(AllocError)
    }
}

fn read_at(alloc: Global, bank: &Bank, place: usize) -> Result<Ty, AllocError> {
    if place < bank.len() {
        Ty::read(alloc, bank, place)
    } else {
        Err(AllocError)
    }
}

/// Puts sequences of sequences of a variable, of this many levels.
fn put_deep(bank: &mut Bank, levels: usize) -> Result<usize, AllocError> {
    let mut place = bank.put(Shape::Var(0))?;
    for _ in 0..levels {
        place = put_sequences(bank, place)?;
    }
    Ok(place)
}

/// Puts all types of a bank into another one, with the type at a place there for the variable, and gives the last one's
/// place.
fn put_all(alloc: Global, from: &Bank, to: &mut Bank, of: usize) -> Result<usize, AllocError> {
    if of >= to.len() {
        return Err(AllocError);
    }
    let places = rename(alloc, from, to, &[of])?;
    Ok(places.last().copied().unwrap_or(0))
}

/// Puts one type of a bank into another one in this way.
fn put_one(
    alloc: Global,
    from: &Bank,
    place: usize,
    to: &mut Bank,
    of: usize,
) -> Result<usize, AllocError> {
    if place >= from.len() || of >= to.len() {
        return Err(AllocError);
    }
    rename_type(alloc, from, place, to, &[of])
}

fn count_variables(alloc: Global, bank: &Bank, place: usize) -> Result<usize, AllocError> {
    if place >= bank.len() {
        return Err(AllocError);
    }
    let variables: IndexSet<u64> = variables(alloc, bank, place)?;
    Ok(variables.as_slice().len())
}

/// Whether the type at the last place has one variable, and is put into another bank with all types and alone.
fn is_renamed(alloc: Global, bank: &Bank, place: usize) -> Result<bool, AllocError> {
    let mut to = Bank::new(alloc);
    let int = to.put(Shape::Int)?;
    let last = put_all(alloc, bank, &mut to, int)?;
    let one = put_one(alloc, bank, place, &mut to, int)?;
    let is_same = last < to.len() && one < to.len() && to.is_same(last, one);
    Ok(is_same && count_variables(alloc, bank, place)? == 1)
}

/// Whether the type is the same as its copy, and not as the sequences of it.
fn is_itself(alloc: Global, ty: &Ty) -> Result<bool, AllocError> {
    let copy = ty.duplicate(alloc)?;
    let sequences = Ty::seq_of(alloc, ty)?;
    Ok(copy.same(ty) && ty.same(&copy) && !sequences.same(ty) && !ty.same(&sequences))
}

/// Whether the type with `int` for its variable, put into a bank, is an instance of it.
fn is_put(alloc: Global, ty: &Ty) -> Result<bool, AllocError> {
    let mut bank = Bank::new(alloc);
    let int = bank.put(Shape::Int)?;
    if int >= bank.len() {
        return Err(AllocError);
    }
    let place = ty.put(alloc, &mut bank, &[int])?;
    Ok(int < bank.len() && ty.is_instance(alloc, &bank, place, &[int])?)
}

/// Whether a type of this many levels is read, copied, compared, put, written and dropped.
fn goes_through(alloc: Global, levels: usize) -> Result<bool, AllocError> {
    let mut bank = Bank::new(alloc);
    let place = put_deep(&mut bank, levels)?;
    let ty = read_at(alloc, &bank, place)?;
    let text = type_text(alloc, &ty, &Context::<u8>::new(alloc))?;
    let is_whole = text.len() / 2 == levels && is_renamed(alloc, &bank, place)?;
    Ok(is_whole && is_itself(alloc, &ty)? && is_put(alloc, &ty)?)
}

#[test]
fn deep_types_take_little_stack(rt: HostRuntime) {
    for levels in [4094, 100_000] {
        let thread = Builder::new()
            .stack_size(STACK)
            .spawn(&rt, move || goes_through(rt.alloc(), levels))
            .expect(&rt, "a thread");
        assert!(rt; matches!(thread.join(&rt), Ok(true)), "{levels}");
    }
}
