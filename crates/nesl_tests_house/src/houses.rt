//! Rosters, and houses to which a few lines are said.
use crate::granting::Granting;
use crate::sample::{LIMITS, house_of, is_reply, lines_of, roster};
use linked_list_allocator::LocalHeap;
use nesl_eval_helpers::Free;
use nesl_house::house::House;
use nesl_house::roster::{NewFault, is_user_name};
use nesl_house::table::Table;
use nesl_session::Fault;
use std::alloc::{AllocError, Global};
use std::thread::Threads;

/// Rosters, each with the reason why there is no house for it. A number means this many names.
const ROSTERS: &str = "0 => bad count
64 => a house
65 => bad count
ann => a house
ann Ann => bad name at place 1
ann bob ann => the name at place 2 stands twice
ann ann Bob => the name at place 1 stands twice
ann 1a => bad name at place 1
ann  => bad name at place 1
ann abcdefghijklmnopq => bad name at place 1
abcdefghijklmnop => a house
abcdefghijklmnopq => bad name at place 0";

// The names aa, ab, and so on.
fn many_names(alloc: Global, count: u8) -> Result<Vec<Vec<u8>>, AllocError> {
    let mut names = Vec::new(alloc);
    for place in 0..count {
        names.push([b'a' + place / 26, b'a' + place % 26].to_vec(alloc)?)?;
    }
    Ok(names)
}

fn names_of(alloc: Global, words: &str) -> Result<Vec<Vec<u8>>, AllocError> {
    match words.parse::<u8>() {
        Ok(count) => many_names(alloc, count),
        Err(_) => roster(alloc, words),
    }
}

fn text_of(alloc: Global, fault: Option<NewFault>) -> Result<String, AllocError> {
    match fault {
        Some(fault) => format!(in alloc; "{fault}"),
        None => String::from_str(alloc, "a house"),
    }
}

// Whether no house and no table is made of this roster for the reason of the row.
fn is_judged(alloc: Global, row: &str) -> Result<bool, AllocError> {
    let (words, wanted) = row.split_once(" => ").unwrap_or((row, ""));
    let names = names_of(alloc, words)?;
    let fault = House::new(alloc, names.as_slice(), LIMITS).err();
    let has_table = Table::new(alloc, names.as_slice(), LIMITS).err() == fault;
    let has_name = match fault {
        Some(NewFault::Name { place }) => !names_one(names.as_slice(), place),
        _ => names_one(names.as_slice(), 0) || names.is_empty(),
    };
    let text = text_of(alloc, fault)?;
    Ok(has_table && has_name && text.as_str() == wanted)
}

// Whether what is at this place is a user's name.
fn names_one(names: &[Vec<u8>], place: usize) -> bool {
    match names.get(place) {
        Some(name) => is_user_name(name.as_slice()),
        None => false,
    }
}

#[test]
fn rosters_are_judged(rt: HostRuntime) {
    for row in ROSTERS.lines() {
        assert!(rt; is_judged(rt.alloc(), row).expect(&rt, "memory"), "{row}");
    }
    let text = text_of(rt.alloc(), Some(NewFault::Memory)).expect(&rt, "memory");
    assert!(rt; text.as_str() == "no memory");
}

/// Lines that are said to a house of ann and bob, each in one of three ways: on its own, in a heap, or in halves.
const SAID: &str = "own bob 7; => it = 7 : int (work 1, depth 1)
own zed 7; => fault user
heap zed 7; => fault user
halves zed 7; => fault user
heap ann index(50000); => fault memory (work 0)
heap ann 1 + 1; => it = 2 : int (work 3, depth 3)
own ann :budget => budget: work 99999997, elements 1 of 100000, lines 1 of 10000, bytes 6 of 1048576
halves bob {a * a : a in [1, 2]}; => it = [1, 4] : [int] (work 12, depth 7)
own bob it; => it = [1, 4] : [int] (work 1, depth 1)";

// Whether a line is answered as its row says. A stranger's line is not recorded.
fn is_answered<R: Threads + Sync>(
    rt: &R,
    alloc: Global,
    house: &mut House,
    row: &str,
    (heap, helpers): (&LocalHeap, &Granting),
) -> bool {
    let (asked, reply) = row.split_once(" => ").unwrap_or((row, ""));
    let (way, said) = asked.split_once(' ').unwrap_or((asked, ""));
    let (user, line) = said.split_once(' ').unwrap_or((said, ""));
    let (user, line) = (user.as_bytes(), line.as_bytes());
    let answer = if way == "own" {
        house.say(alloc, user, line)
    } else if way == "heap" {
        house.say_in(alloc, user, line, heap)
    } else {
        house.say_with(rt, alloc, user, line, helpers, &Free)
    };
    let is_strange = answer.fault() == Some(Fault::User);
    is_reply(answer.bytes(), reply)
        && is_strange == (reply == "fault user")
        && !(is_strange && answer.recorded())
}

// How many lines the session of the second user stored.
fn lines_of_second(house: &House) -> Option<usize> {
    let user = house.users().get(1)?;
    Some(user.session().lines().len())
}

#[test]
fn each_user_has_a_session(rt: HostRuntime) {
    let heap = LocalHeap::new(rt.alloc(), 65_536).expect(&rt, "memory");
    let helpers = Granting::always();
    let mut house = house_of(rt.alloc(), "ann bob", LIMITS).expect(&rt, "memory");
    for row in SAID.lines() {
        let is_right = is_answered(&rt, rt.alloc(), &mut house, row, (&heap, &helpers));
        assert!(rt; is_right, "{row}");
    }
    let (ann, bob) = (lines_of(&house, b"ann"), lines_of(&house, b"bob"));
    let are_stored = ann == Some(2) && bob == Some(3) && lines_of_second(&house) == bob;
    let is_strange = lines_of(&house, b"zed").is_none();
    assert!(rt; are_stored && is_strange && helpers.have_helped());
}
