// The greatest and the least element.
ghost use Rattle.std.specs.Prelude.{◌≡◌, ◌<◌, ◌^◌, length, map, option_map, IfSome, IfOk};
ghost use Rattle.nesl_values.specs.Tree.{ValueTree};
ghost use Rattle.nesl_seqs_base.specs.Lent.{argument_tree};
ghost use Rattle.nesl_values.specs.View.{item_trees};
ghost use Rattle.nesl_seqs_base.specs.Reductions.{all_of};
ghost use Rattle.nesl_seqs_base.specs.Meaning.{outcome_of};
ghost use Rattle.nesl_seqs.specs.Scalar.{ScalarIs, ResultIs, scalar_tree};
ghost use Rattle.nesl_seqs_base.specs.Extremes.{key, element_of, leads, best, of_best, best_element, best_place};
ghost use Rattle.nesl_seqs.specs.Better.{better, IsKey};
ghost use Rattle.nesl_seqs_base.specs.declared.order.Best.{Best};
ghost use Rattle.nesl_seqs_base.specs.declared.order.Kind.{Kind};
ghost use Rattle.nesl_seqs_base.specs.declared.seq_fn.SeqFn.TheVariants.{MaxVal, MinVal, MaxIndex, MinIndex};

use crate::fold::reductions::Scalar;
use nesl_scalars::Trap;
use nesl_seqs_base::argument::Argument;
use nesl_seqs_base::arguments::{WRONG_SHAPE, sequence};
use nesl_seqs_base::item::Item;
use nesl_seqs_base::order::{Best, Kind, Order};
use nesl_values::Items;
use std::alloc::Allocator;

pub fn max_val<A: Allocator>(argument: Argument<'_, A>) -> Result<Scalar, Trap>
    ensures { ScalarIs (outcome_of MaxVal (argument_tree argument.entry)) result }
{
    best_element(argument, Order::Greatest)
}

pub fn min_val<A: Allocator>(argument: Argument<'_, A>) -> Result<Scalar, Trap>
    ensures { ScalarIs (outcome_of MinVal (argument_tree argument.entry)) result }
{
    best_element(argument, Order::Least)
}

pub fn max_index<A: Allocator>(argument: Argument<'_, A>) -> Result<Scalar, Trap>
    ensures { ScalarIs (outcome_of MaxIndex (argument_tree argument.entry)) result }
{
    best_place(argument, Order::Greatest)
}

pub fn min_index<A: Allocator>(argument: Argument<'_, A>) -> Result<Scalar, Trap>
    ensures { ScalarIs (outcome_of MinIndex (argument_tree argument.entry)) result }
{
    best_place(argument, Order::Least)
}

fn best_element<A: Allocator>(argument: Argument<'_, A>, order: Order) -> Result<Scalar, Trap>
    ensures { ScalarIs (best_element order (argument_tree argument.entry)) result }
{
    let (kind, best) = best(argument, order)?;
    Ok(element_of(kind, best.key))
}

fn best_place<A: Allocator>(argument: Argument<'_, A>, order: Order) -> Result<Scalar, Trap>
    ensures { ScalarIs (best_place order (argument_tree argument.entry)) result }
{
    let (_, best) = best(argument, order)?;
    Ok(Scalar::Int(best.place as i64))
}

// The element with that number.
fn element_of(kind: Kind, key: i64) -> Scalar
    requires { IsKey kind key }
    ensures { scalar_tree result ≡ element_of kind key }
{
    match kind {
        Kind::Numbers => Scalar::Int(key),
        Kind::Codes => Scalar::Char(key as u8),
    }
}

// The best element, and the kind of all of them.
fn best<A: Allocator>(argument: Argument<'_, A>, order: Order) -> Result<(Kind, Best), Trap>
    ensures found { (f : Kind → Best → ValueTree)
        → ResultIs (λ p. f p.0 p.1) (of_best order f (argument_tree argument.entry)) result }
    ensures small { IfOk result (λ p. (p.1.place < 2 ^ 63) × IsKey p.0 p.1.key) }
{
    let Some(items) = sequence(argument) else {
        return Err(WRONG_SHAPE);
    };
    let (kind, best) = match best_of_items(items, Kind::Numbers, order) {
        Some(best) => (Kind::Numbers, best),
        None => match best_of_items(items, Kind::Codes, order) {
            Some(best) => (Kind::Codes, best),
            None => return Err(WRONG_SHAPE),
        },
    };
    match best {
        Some(best) => Ok((kind, best)),
        None => Err(Trap::Empty),
    }
}

fn best_of_items<A: Allocator>(
    items: Items<'_, A>,
    kind: Kind,
    order: Order,
) -> Option<Option<Best>>
    requires { length (item_trees items) < 2 ^ 63 }
    ensures best { result ≡ option_map (best order) (all_of (key kind) (item_trees items.entry)) }
    ensures small { IfSome result (λ o. IfSome o (λ b. (b.place < 2 ^ 63) × IsKey kind b.key)) }
{
    match items {
        Items::Ints(ints) => best_of(ints, kind, order),
        Items::Bools(bools) => best_of(bools, kind, order),
        Items::Chars(chars) => best_of(chars, kind, order),
        Items::Values(values) => best_of(values, kind, order),
    }
}

fn best_of<T: Item>(items: &[T], kind: Kind, order: Order) -> Option<Option<Best>>
    requires { length items.now < 2 ^ 63 }
    ensures best { result ≡ option_map (best order) (all_of (key kind) (map T.tree items.now)) }
    ensures small { IfSome result (λ o. IfSome o (λ b. (b.place < 2 ^ 63) × IsKey kind b.key)) }
{
    let mut best = None;
    let mut place = 0;
    for item in items {
        let key = key(item, kind)?;
        best = Some(better(order, best, Best { place, key }));
        place += 1;
    }
    Some(best)
}

// The better of the best so far and the next.
fn better(order: Order, best: Option<Best>, next: Best) -> Best
    ensures { result ≡ better order best next }
{
    match best {
        Some(best) if leads(order, best.key, next.key) => best,
        _ => next,
    }
}

fn leads(order: Order, one: i64, other: i64) -> bool
    ensures { result ≡ leads order one other }
{
    match order {
        Order::Greatest => one >= other,
        Order::Least => one <= other,
    }
}

// The number by which an item is ordered.
fn key<T: Item>(item: &T, kind: Kind) -> Option<i64>
    ensures key { result ≡ key kind (T.tree item.now) }
    ensures small { IfSome result (λ z. IsKey kind z) }
{
    match kind {
        Kind::Numbers => item.as_int(),
        Kind::Codes => Some(item.as_char()? as i64),
    }
}
