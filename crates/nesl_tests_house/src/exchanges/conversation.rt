//! Two users say a sum each: four lines, cut off at every byte, read byte by byte, and written as far as there is room.
use crate::exchanges::batches::{is_answered, outcome_of};
use crate::exchanges::devices::{Paper, Tape, blank_paper, paper_of, tape_of};
use nesl_line::exchange::{End, Ran};
use std::alloc::{AllocError, Global};

/// 36 bytes.
const SAID: &[u8] = b"user ann\n2 * 3 + 1;\nuser bob\n4 + 5;\n";

const ANSWERS: &[u8] = b"user ann
it = 7 : int (work 5, depth 5)
user bob
it = 9 : int (work 3, depth 3)
";

/// What is answered to the first bytes of the conversation, which then ends, and to how many lines. Of a sum that is
/// cut off before its `;` the form isn't whole; the name that is cut off is a stranger's.
fn answered(len: usize) -> (&'static str, u64) {
    match len {
        0 => ("", 0),
        1..=7 => ("fault user\n", 1),
        8 | 9 => ("user ann\n", 1),
        10..=18 => ("user ann\nfault syntax (work 0)\n", 2),
        19 | 20 => ("user ann\nit = 7 : int (work 5, depth 5)\n", 2),
        21..=25 => (
            "user ann\nit = 7 : int (work 5, depth 5)\nfault syntax (work 0)\n",
            3,
        ),
        26 | 27 => ("user ann\nit = 7 : int (work 5, depth 5)\nfault user\n", 3),
        28 | 29 => ("user ann\nit = 7 : int (work 5, depth 5)\nuser bob\n", 3),
        30..=34 => (
            "user ann\nit = 7 : int (work 5, depth 5)\nuser bob\nfault syntax (work 0)\n",
            4,
        ),
        _ => (
            "user ann\nit = 7 : int (work 5, depth 5)\nuser bob\nit = 9 : int (work 3, depth 3)\n",
            4,
        ),
    }
}

#[test]
fn cut_off_at_every_byte(rt: HostRuntime) {
    for len in 0..=SAID.len() {
        let (said, wanted) = (&SAID[..len], answered(len));
        let bytewise = is_answered(rt.alloc(), said, 1, wanted).expect(&rt, "memory");
        assert!(rt;
            bytewise && is_answered(rt.alloc(), said, 1000, wanted).expect(&rt, "memory"),
            "{len}"
        );
    }
}

/// Whether the given numbers of lines are heard, of bytes answered and of lines stored if the read after `good` reads
/// of one byte fails.
fn ends_after(
    alloc: Global,
    good: u32,
    (lines, len, stored): (u64, usize, usize),
) -> Result<bool, AllocError> {
    let tape = Tape {
        rest: SAID,
        step: 1,
        good,
    };
    let outcome = outcome_of(alloc, tape, blank_paper(alloc))?;
    let end = End::ReadFault;
    let (lines_of_ann, _) = outcome.of_ann;
    let is_told = Some(outcome.paper.bytes.as_slice()) == ANSWERS.get(..len);
    let is_counted = outcome.failures == (1, 0) && lines_of_ann == stored;
    Ok(outcome.ran == Ran { lines, end } && is_told && is_counted)
}

#[test]
fn a_read_of_one_byte_that_fails(rt: HostRuntime) {
    for good in 0..36u32 {
        // The 20th read is the one that brings the line end of the first sum.
        let wanted = match good {
            0..=8 => (0, 0, 0),
            9..=19 => (1, 9, 0),
            20..=28 => (2, 40, 1),
            _ => (3, 49, 1),
        };
        assert!(rt;
            ends_after(rt.alloc(), good, wanted).expect(&rt, "memory"),
            "{good}"
        );
    }
}

/// Whether the writer ends the batch where it has room for this many bytes: they are written and no more, and a line
/// whose answer could not be written whole stays recorded.
fn ends_by_writer(
    alloc: Global,
    step: usize,
    room: usize,
    stalls: bool,
) -> Result<bool, AllocError> {
    let paper = Paper {
        stalls,
        ..paper_of(alloc, step, room)
    };
    let outcome = outcome_of(alloc, tape_of(SAID, 1000), paper)?;
    let (lines, of_ann) = match room {
        0..=8 => (1, (0, 100_000_000)),
        9..=39 => (2, (1, 99_999_995)),
        40..=48 => (3, (1, 99_999_995)),
        _ => (4, (1, 99_999_995)),
    };
    let end = End::WriteFault;
    let (_, failures) = outcome.failures;
    let is_told = Some(outcome.paper.bytes.as_slice()) == ANSWERS.get(..room);
    Ok(
        outcome.ran == Ran { lines, end }
            && is_told
            && failures == u64::from(!stalls)
            && outcome.of_ann == of_ann,
    )
}

#[test]
fn a_writer_with_room_for_so_many_bytes(rt: HostRuntime) {
    for room in 0..ANSWERS.len() {
        for step in [1, 1000] {
            let fails = ends_by_writer(rt.alloc(), step, room, false).expect(&rt, "memory");
            assert!(rt;
                fails && ends_by_writer(rt.alloc(), step, room, true).expect(&rt, "memory"),
                "{room}"
            );
        }
    }
}
