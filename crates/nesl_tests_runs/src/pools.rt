//! How many permits a pool grants.
ghost use Rattle.std.specs.Prelude.{◌≡◌};

use crate::writing::put;
use nesl_eval_helpers::{Helpers, Permit, Pool};
use std::alloc::{AllocError, Global};
use std::marker::Brand;
use std::sync::Wait;
use std::sync::ledger::{Blank, Ledger};

/// Writes how many permits are free. Of a pool of three: at first and after each of three questions, after a fourth
/// that is refused, and after each permit that goes back. Of a pool of none: after a question that is refused, and
/// after another once it is closed. Of a pool of three with one permit out: after questions that are refused once it
/// is closed, and once more; then after the permit that goes back, and after one more that is refused.
pub fn put_asks<R: Wait>(rt: &R, alloc: Global, out: &mut Vec<u8>) -> Result<(), AllocError> {
    let (granted, fourth, back) = of_three::<Brand, _>(rt, Blank::new(3));
    put(out, format!(in alloc; "{granted:?} {fourth:?} {back:?}\n"))?;
    let refused = of_none::<Brand, _>(rt, Blank::new(0));
    put(out, format!(in alloc; "{refused:?}\n"))?;
    let (refused, back, last) = of_closed::<Brand, _>(rt, Blank::new(3));
    put(out, format!(in alloc; "{refused:?} {back} {last:?}\n"))
}

// How many are free after a question, if it is refused.
fn refused<L: Ledger, R: Wait>(rt: &R, pool: &Pool<L>) -> Option<u32> {
    match pool.by(rt).ask() {
        Some(permit) => {
            pool.by(rt).done(permit);
            None
        }
        None => Some(pool.free(rt)),
    }
}

// How many are free once a permit is back, if there was one.
fn given_back<L: Ledger, R: Wait>(rt: &R, pool: &Pool<L>, permit: Option<Permit<L>>) -> u32 {
    if let Some(permit) = permit {
        pool.by(rt).done(permit);
    }
    pool.free(rt)
}

fn of_three<L: Ledger, R: Wait>(rt: &R, blank: Blank) -> ([u32; 4], Option<u32>, [u32; 3])
    requires { (blank.name ≡ L.name) × (blank.parts ≡ L.parts) × (blank.parts ≡ 3) }
{
    let pool: Pool<L> = Pool::new(3, blank);
    let all = pool.free(rt);
    let first = pool.by(rt).ask();
    let two = pool.free(rt);
    let second = pool.by(rt).ask();
    let one = pool.free(rt);
    let third = pool.by(rt).ask();
    let none = pool.free(rt);
    let fourth = refused(rt, &pool);
    let back = [
        given_back(rt, &pool, second),
        given_back(rt, &pool, first),
        given_back(rt, &pool, third),
    ];
    ([all, two, one, none], fourth, back)
}

fn of_none<L: Ledger, R: Wait>(rt: &R, blank: Blank) -> [Option<u32>; 2]
    requires { (blank.name ≡ L.name) × (blank.parts ≡ L.parts) × (blank.parts ≡ 0) }
{
    let pool: Pool<L> = Pool::new(0, blank);
    let open = refused(rt, &pool);
    pool.close(rt);
    [open, refused(rt, &pool)]
}

fn of_closed<L: Ledger, R: Wait>(rt: &R, blank: Blank) -> ([Option<u32>; 2], u32, Option<u32>)
    requires { (blank.name ≡ L.name) × (blank.parts ≡ L.parts) × (blank.parts ≡ 3) }
{
    let pool: Pool<L> = Pool::new(3, blank);
    let permit = pool.by(rt).ask();
    pool.close(rt);
    let once = refused(rt, &pool);
    pool.close(rt);
    let twice = refused(rt, &pool);
    let free = given_back(rt, &pool, permit);
    ([once, twice], free, refused(rt, &pool))
}
