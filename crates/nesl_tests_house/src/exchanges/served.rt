//! Connections under a lease, which goes back however they end.
use crate::exchanges::devices::{Paper, Tape, blank_paper, paper_of, tape_of};
use crate::sample::table;
use nesl_eval_helpers::{Free, NoHelpers};
use nesl_house::table::Table;
use nesl_line::device::Device;
use nesl_line::exchange::End;
use nesl_line::serve::{Served, serve};
use std::alloc::{AllocError, Global};
use std::sync::Wait;
use std::thread::Threads;

/// 36 bytes, of which the third line is no user line to a session.
const SAID: &[u8] = b"user ann\n2 * 3 + 1;\nuser bob\n4 + 5;\n";

const ANSWERS: &str = "user ann\nit = 7 : int (work 5, depth 5)\nfault syntax (work 0)\n\
    it = 9 : int (work 3, depth 3)\n";

// What is answered on a connection that reads the tape and writes on the paper, and how it ends.
fn served<R: Threads + Wait + Sync>(
    rt: &R,
    alloc: Global,
    table: &Table,
    tape: Tape<'_>,
    paper: Paper,
) -> (Vec<u8>, Served) {
    let mut reader = Device::new(tape);
    let mut writer = Device::new(paper);
    let ran = serve(
        rt,
        alloc,
        &mut reader,
        &mut writer,
        table,
        &NoHelpers,
        &Free,
    );
    (writer.into_inner().bytes, ran)
}

// The lines that a user's session stored, or none where it is away.
fn stored<R: Wait>(rt: &R, table: &Table, user: &[u8]) -> Option<usize> {
    match table.take(rt, user) {
        Ok(lease) => {
            let lines = lease.session().lines().len();
            table.give(rt, lease);
            Some(lines)
        }
        Err(_) => None,
    }
}

// What comes of the only connection of a table.
#[derive(Drop)]
struct Outcome {
    answers: Vec<u8>,
    lines: u64,
    end: End,
    // What the receipt tells.
    recorded: Option<u64>,
    // The lines that ann's session stored. It is back in the table then.
    stored: Option<usize>,
}

fn outcome_of<R: Threads + Wait + Sync>(
    rt: &R,
    alloc: Global,
    tape: Tape<'_>,
    paper: Paper,
) -> Result<Outcome, AllocError> {
    let table = table(alloc)?;
    let (answers, ran) = served(rt, alloc, &table, tape, paper);
    Ok(Outcome {
        answers,
        lines: ran.lines,
        end: ran.end,
        recorded: ran.receipt.map(|receipt| receipt.recorded),
        stored: stored(rt, &table, b"ann"),
    })
}

// What is answered to the first bytes.
fn answered(len: usize) -> &'static str {
    match len {
        0 => "",
        1..=7 => "fault user\n",
        8 | 9 => "user ann\n",
        10..=18 => "user ann\nfault syntax (work 0)\n",
        19 | 20 => "user ann\nit = 7 : int (work 5, depth 5)\n",
        21..=29 => "user ann\nit = 7 : int (work 5, depth 5)\nfault syntax (work 0)\n",
        30..=34 => {
            "user ann\nit = 7 : int (work 5, depth 5)\nfault syntax (work 0)\nfault syntax (work 0)\n"
        }
        _ => ANSWERS,
    }
}

#[test]
fn cut_off_at_every_byte(rt: HostRuntime) {
    for len in 0..=SAID.len() {
        let tape = tape_of(&SAID[..len], 1);
        let outcome = outcome_of(&rt, rt.alloc(), tape, blank_paper(rt.alloc())).expect(
            &rt, "memory",
        );
        let is_ended = outcome.end == End::Input && outcome.recorded.is_some() == (len >= 8);
        let is_told = outcome.answers.as_slice() == answered(len).as_bytes();
        assert!(rt; is_ended && is_told && outcome.stored.is_some(), "{len}");
    }
}

// How many lines are heard, how many bytes answered, and how many lines stored, where the read after this many fails.
fn heard(good: u32) -> (u64, usize, u64) {
    match good {
        0..=8 => (0, 0, 0),
        9..=19 => (1, 9, 0),
        20..=28 => (2, 40, 1),
        _ => (3, 62, 2),
    }
}

#[test]
fn a_read_that_fails_gives_the_lease_back(rt: HostRuntime) {
    for good in 0..36u32 {
        let tape = Tape {
            rest: SAID,
            step: 1,
            good,
        };
        let outcome = outcome_of(&rt, rt.alloc(), tape, blank_paper(rt.alloc())).expect(
            &rt, "memory",
        );
        let (lines, len, stored) = heard(good);
        let is_ended = outcome.lines == lines && outcome.end == End::ReadFault;
        let is_told = Some(outcome.answers.as_slice()) == ANSWERS.as_bytes().get(..len);
        let is_counted = outcome.recorded == if good >= 9 { Some(stored) } else { None };
        let is_stored = outcome.stored == Some(stored as usize);
        assert!(rt; is_ended && is_told && is_counted && is_stored, "{good}");
    }
}

// Whether the lease goes back where this many bytes are written. The line whose answer could not be written stays
// stored.
fn is_given_back<R: Threads + Wait + Sync>(
    rt: &R,
    alloc: Global,
    room: usize,
    stalls: bool,
) -> Result<bool, AllocError> {
    let paper = Paper {
        stalls,
        ..paper_of(alloc, 5, room)
    };
    let outcome = outcome_of(rt, alloc, tape_of(SAID, 1000), paper)?;
    let (lines, stored) = match room {
        0..=8 => (1, 0),
        9..=39 => (2, 1),
        40..=61 => (3, 2),
        _ => (4, 3),
    };
    let is_ended = outcome.lines == lines && outcome.end == End::WriteFault;
    let is_told = Some(outcome.answers.as_slice()) == ANSWERS.as_bytes().get(..room);
    Ok(is_ended && is_told && outcome.stored == Some(stored))
}

#[test]
fn a_write_that_fails_gives_the_lease_back(rt: HostRuntime) {
    for room in 0..ANSWERS.len() {
        let fails = is_given_back(&rt, rt.alloc(), room, false).expect(&rt, "memory");
        assert!(rt;
            fails && is_given_back(&rt, rt.alloc(), room, true).expect(&rt, "memory"),
            "{room}"
        );
    }
}

// Whether this is answered to the first line, and there is no lease.
fn is_refused<R: Threads + Wait + Sync>(
    rt: &R,
    alloc: Global,
    table: &Table,
    text: &str,
    wanted: &str,
) -> bool {
    let tape = tape_of(text.as_bytes(), 1000);
    let (answers, ran) = served(rt, alloc, table, tape, blank_paper(alloc));
    let refused = Served {
        lines: 1,
        receipt: None,
        end: End::Input,
    };
    answers.as_slice() == wanted.as_bytes() && ran == refused
}

#[test]
fn who_is_turned_away(rt: HostRuntime) {
    let alloc = rt.alloc();
    let table = table(alloc).expect(&rt, "memory");
    let Ok(lease) = table.take(&rt, b"ann") else {
        panic!(rt; "ann is at home");
    };
    let are_refused = is_refused(&rt, alloc, &table, "user ann\n1;\n", "fault busy\n")
        && is_refused(&rt, alloc, &table, "user zed\n1;\n", "fault user\n")
        && is_refused(&rt, alloc, &table, "1;\nuser bob\n1;\n", "fault user\n")
        && is_refused(&rt, alloc, &table, "user bob \n", "fault user\n");
    table.give(&rt, lease);
    let are_home = stored(&rt, &table, b"ann").is_some() && stored(&rt, &table, b"bob").is_some();
    assert!(rt; are_refused && are_home);
}
