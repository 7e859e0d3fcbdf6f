//! Two users who say three lines each, in every order and in each way: no one's replies depend on the other's lines.
use crate::granting::Granting;
use crate::sample::{LIMITS, house_of, is_reply};
use nesl_eval_helpers::{Free, NoHelpers};
use nesl_house::house::{House, Said};
use nesl_house::manner::InHeap;
use nesl_session::answer::Answer;
use nesl_session::limits::Limits;
use std::alloc::{AllocError, Global};
use std::str::Lines;
use std::thread::Threads;

/// What ann says and what bob says, three rows `LINE => REPLY` each.
#[derive(Clone, Copy)]
struct Talk {
    ann: &'static str,
    bob: &'static str,
    limits: Limits,
}

const NAMES: Talk = Talk {
    ann: r#"x = 3; => x = 3 : int (work 1, depth 1)
x; => it = 3 : int (work 1, depth 1)
x + 1; => it = 4 : int (work 3, depth 3)"#,
    bob: r#"x = "ab"; => x = "ab" : [char] (work 3, depth 1)
x; => it = "ab" : [char] (work 1, depth 1)
#x; => it = 2 : int (work 2, depth 2)"#,
    limits: LIMITS,
};

const EACHS: Talk = Talk {
    ann: r#"v = {negate(a) : a in [3, -4, -9, 5]}; => v = [-3, 4, 9, -5] : [int] (work 20, depth 10)
{10 / a : a in [5, 0, 2, 0]}; => fault division at 1..7 (work 13)
{a in v | a < 4}; => it = [-3, -5] : [int] (work 18, depth 6)"#,
    bob: r#"{sum(v) : v in [[2,1],[7,3,0],[4]]}; => it = [3, 10, 4] : [int] (work 26, depth 15)
{a + b : a in [1, 2]; b in [3]}; => fault length at 0..31 (work 6)
{a * a : a in it}; => it = [9, 100, 16] : [int] (work 14, depth 5)"#,
    limits: LIMITS,
};

/// Sessions that may take two steps each.
const SHORT: Talk = Talk {
    ann: "3; => it = 3 : int (work 1, depth 1)
x => fault syntax (work 0)
4; => it = 4 : int (work 1, depth 1)",
    bob: "5; => it = 5 : int (work 1, depth 1)
6; => it = 6 : int (work 1, depth 1)
7; => fault work (work 0)",
    limits: Limits {
        session_work: 2,
        ..LIMITS
    },
};

/// How the lines of a script are said.
#[derive(Clone, Copy)]
enum Way<'h> {
    Plainly,
    InHeap,
    Alone,
    With(&'h Granting),
}

/// The number of the orders.
const ORDERS: u32 = 20;

// Whether these are turns of an order: ann's are the ones among the lowest six bits.
fn is_order(turns: u8) -> bool {
    turns < 64 && turns.count_ones() == 3
}

fn said(alloc: Global, user: &str, text: &str) -> Result<Said, AllocError> {
    let user = Vec::from_slice(alloc, user.as_bytes())?;
    let text = Vec::from_slice(alloc, text.as_bytes())?;
    Ok(Said { user, text })
}

// The user whose turn it is, and their next row.
fn next_row<'t>(
    turns: u8,
    ann: &mut Lines<'t>,
    bob: &mut Lines<'t>,
) -> (&'static str, &'t str, &'t str) {
    let (user, row) = if turns & 1 == 1 {
        ("ann", ann.next())
    } else {
        ("bob", bob.next())
    };
    let (line, reply) = row.unwrap_or("").split_once(" => ").unwrap_or(("", ""));
    (user, line, reply)
}

// What is said in this order, and last a line of a stranger.
fn script(alloc: Global, talk: &Talk, order: u8) -> Result<Vec<Said>, AllocError> {
    let mut script = Vec::new(alloc);
    let (mut ann, mut bob) = (talk.ann.lines(), talk.bob.lines());
    for turn in 0..6u32 {
        let (user, line, _) = next_row(order >> turn, &mut ann, &mut bob);
        script.push(said(alloc, user, line)?)?;
    }
    script.push(said(alloc, "zed", "1;")?)?;
    Ok(script)
}

// Whether each hears the replies to their own lines.
fn are_heard(talk: &Talk, order: u8, answers: &[Answer]) -> bool {
    let Some((last, answers)) = answers.split_last() else {
        return false;
    };
    let (mut ann, mut bob, mut turns) = (talk.ann.lines(), talk.bob.lines(), order);
    for answer in answers {
        let (_, _, reply) = next_row(turns, &mut ann, &mut bob);
        turns >>= 1;
        if !is_reply(answer.bytes(), reply) {
            return false;
        }
    }
    answers.len() == 6 && is_reply(last.bytes(), "fault user")
}

// What is answered to a script that is said in this way.
fn answers<R: Threads + Sync>(
    rt: &R,
    alloc: Global,
    house: &mut House,
    script: &[Said],
    way: Way<'_>,
) -> Result<Vec<Answer>, AllocError> {
    match way {
        Way::Plainly => house.run(alloc, script),
        Way::InHeap => house.run_by(alloc, &InHeap(alloc), script),
        Way::Alone => house.run_with(rt, alloc, script, &NoHelpers, &Free),
        Way::With(helpers) => house.run_with(rt, alloc, script, helpers, &Free),
    }
}

fn hear_their_own<R: Threads + Sync>(
    rt: &R,
    alloc: Global,
    talk: &Talk,
    order: u8,
    way: Way<'_>,
) -> Result<bool, AllocError> {
    let script = script(alloc, talk, order)?;
    let mut house = house_of(alloc, "ann bob", talk.limits)?;
    let answers = answers(rt, alloc, &mut house, script.as_slice(), way)?;
    Ok(are_heard(talk, order, answers.as_slice()))
}

// In how many orders of the turns they do.
fn orders_heard<R: Threads + Sync>(
    rt: &R,
    alloc: Global,
    talk: &Talk,
    way: Way<'_>,
) -> Result<u32, AllocError> {
    let mut orders = 0u32;
    for order in 0u8..64 {
        if is_order(order) && hear_their_own(rt, alloc, talk, order, way)? {
            orders = orders.saturating_add(1);
        }
    }
    Ok(orders)
}

#[test]
fn no_one_hears_others(rt: HostRuntime) {
    let (always, second) = (Granting::always(), Granting::every_second());
    for talk in [NAMES, EACHS, SHORT] {
        for way in [
            Way::Plainly,
            Way::InHeap,
            Way::Alone,
            Way::With(&always),
            Way::With(&second),
        ] {
            let orders = orders_heard(&rt, rt.alloc(), &talk, way).expect(&rt, "memory");
            assert!(rt; orders == ORDERS, "{}", talk.ann);
        }
    }
    assert!(rt; always.have_helped() && second.have_helped());
}
