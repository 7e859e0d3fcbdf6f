//! Rows `SCRIPT => TOLD`: what a script reports of values.
//!
//! A script is words, each of which is a number, or begins with a letter or a sign. These make values:
//!
//! - `-2` is a number, `T` and `F` are truth values, and `'97` is the character of a code;
//! - `i1,-2`, `bTF` and `cab` are packed numbers, truth values and characters, and `e` is the sequence of nothing;
//! - `p` and `s` are the pair and the sequence of the last two values, and `t7` is the last one with a tag;
//! - `d40` is the pair of the last one with itself, and so on, 40 times;
//! - `y` shares the last one and `k` copies it; `@2` shares the element at a place of it, and `^2` the item there;
//! - `~2` copies its first two elements;
//! - `x` drops the last one, and `w` changes its place with the one before it;
//! - `>` puts the two parts of a pair in its place, and `<` what has a tag, which it writes.
//!
//! These tell of the last value:
//!
//! - `#` its nodes, and `#18` these up to a limit;
//! - `?` what is read of it and its shape, and `/` how many items it has, and of which kind;
//! - `=` whether it is the same as the one before it, by each way to compare them;
//! - `!t7` or `!d1` whether such a value is refused.

use crate::desk::Desk;
use std::alloc::{AllocError, Global};
use std::process::Abort;

const READ: &str =
    "i3,-4,5 -1 cab p T '122 p bTF p s t7 p #19 #18 ? / => 19 none pair 4 14 (4, 14) 0 values
-1 cab p T '122 p bTF p s t7 # ? / => 14 tagged 7 13 7(13) 0 values
-1 cab p T '122 p bTF p s # ? / => 13 sequence 2 [2] 2 values
i3,-4,5 # ? / => 4 sequence 3 [3] 3 ints
-3 ? # / => int -3 -3 1 0 values
T ? # / => bool true true 1 0 values
'113 ? # / -3 = => char 113 '113 1 0 values false
1 2 s ? / => sequence 2 [2] 2 values
1 > => none
1 < => none";

/// Sequences of nothing are the same in each way that they are held.
const EMPTY: &str = "e # ? / k = x e = x 1 2 s = => 1 sequence 0 [0] 0 values true true false
i # ? / k = x e = x 1 2 s = => 1 sequence 0 [0] 0 ints true true false
b # ? / k = x e = x 1 2 s = => 1 sequence 0 [0] 0 bools true true false
c # ? / k = x e = x 1 2 s = => 1 sequence 0 [0] 0 chars true true false";

const SHARED: &str = "7 d40 # #1125899906842624 #1099511627776 => 2199023255551 2199023255551 none
7 d63 # #18446744073709551615 #18446744073709551614 y !t0 y !d1 # => 18446744073709551615 18446744073709551615 none true true 18446744073709551615
7 !d64 7 d63 !d0 # => true false 18446744073709551615
i3,-4,5 -1 cab p T '122 p bTF p s t7 p y > # w # x w i3,-4,5 -1 cab p T '122 p bTF p s t7 p = x w < w x # > => 14 4 true 7 13 none
1 T s ~2 = i1,2,3 ~2 i1,2 = => true true
7 i3,-4,5 -1 cab p T '122 p bTF p s t7 p s @1 w x i3,-4,5 -1 cab p T '122 p bTF p s t7 p = => true
i4 @0 ? => int 4 4
1 2 s ^1 ? => int 2 2
i1,2 #2 #3 1 2 s #2 #3 = x i1,2,3 = => none 3 none 3 true false
1 t7 1 t8 = => false";

// Whether a row holds.
fn holds(alloc: Global, row: &str) -> Result<bool, AllocError> {
    let (script, wanted) = row.split_once(" =>").unwrap_or((row, ""));
    let mut text = String::new(alloc);
    Desk::new(alloc).run(script, &mut text)?;
    Ok(text.as_str() == wanted)
}

// Fails at the first row that doesn't hold.
fn all_hold<R: Abort>(rt: &R, alloc: Global, rows: &str) {
    for row in rows.lines() {
        assert!(rt; holds(alloc, row).expect(rt, "memory"), "{row}");
    }
}

#[test]
fn of_values(rt: HostRuntime) {
    for rows in [READ, EMPTY, SHARED] {
        all_hold(&rt, rt.alloc(), rows);
    }
}
