//! A text whose bytes are known, and the replies to it.
use crate::sample::{house, lines_of};
use linked_list_allocator::LocalHeap;
use nesl_house::manner::{InHeap, Manner, Plainly};
use nesl_line::batch::answer_text;
use std::alloc::{AllocError, Global};

// Two users say a sum each, and the first says it again. The last line has no line end.
const TEXT: &[u8] = b"2 * 3 + 1;
user ann
2 * 3 + 1;
user bob
4 + 5;
user ann
2 * 3 + 1;";

const REPLIES: &[u8] = b"fault user
user ann
it = 7 : int (work 5, depth 5)
user bob
it = 9 : int (work 3, depth 3)
user ann
it = 7 : int (work 5, depth 5)
";

// Whether the text has these replies in this manner, and ann's session stored two lines and bob's one.
fn is_answered<M: Manner>(alloc: Global, manner: &M) -> Result<bool, AllocError> {
    let mut house = house(alloc)?;
    let replies = answer_text(alloc, TEXT, &mut house, manner)?;
    let stored = (lines_of(&house, b"ann"), lines_of(&house, b"bob"));
    Ok(replies.as_slice() == REPLIES && stored == (Some(2), Some(1)))
}

#[test]
fn a_text_is_answered_to_its_last_line(rt: HostRuntime) {
    assert!(rt; is_answered(rt.alloc(), &Plainly).expect(&rt, "memory"));
    let heap = LocalHeap::new(rt.alloc(), 65_536).expect(&rt, "memory");
    assert!(rt; is_answered(rt.alloc(), &InHeap(&heap)).expect(&rt, "memory"));
}
