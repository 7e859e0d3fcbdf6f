//! Which lines a text has, and what is answered to them.
use crate::exchanges::batches::is_answered;
use std::alloc::{AllocError, Global};

/// Texts and their answers, one for each line. A `/` means a line end, and a `~` a carriage return.
const TEXTS: &str = r" =>
user ann/7;/user bob/9;/ => user ann/it = 7 : int (work 1, depth 1)/user bob/it = 9 : int (work 1, depth 1)/
1;/user zed/1;/user ann/2; => fault user/fault user/fault user/user ann/it = 2 : int (work 1, depth 1)/
user ann/2 * => user ann/fault syntax (work 0)/
user ann// => user ann/ok/
user ann/1 + \/user bob/5;/ => user ann/more/user bob/it = 5 : int (work 1, depth 1)/
user ann/1 + \/user bob/user ann/2;/ => user ann/more/user bob/user ann/it = 3 : int (work 3, depth 3)/
user ann~/9;~/ => user ann/it = 9 : int (work 1, depth 1)/
user ann/9;~ => user ann/it = 9 : int (work 1, depth 1)/
user ann~ => fault user/
user ann/user 1a/9;/ => user ann/fault user/fault user/
user ann/user abcdefghijklmnopq/9;/ => user ann/fault user/fault user/
user ann/user  ann/user/User ann/ => user ann/fault syntax (work 0)/fault syntax (work 0)/fault syntax (work 0)/";

fn written_out(alloc: Global, part: &str) -> Result<String, AllocError> {
    part.replace(alloc, "/", "\n")?.replace(alloc, "~", "\r")
}

// Whether the text of a row is answered so, however many bytes come at a time.
fn row_holds(alloc: Global, row: &str) -> Result<bool, AllocError> {
    let (text, wanted) = row.split_once(" =>").unwrap_or((row, ""));
    let text = written_out(alloc, text)?;
    let wanted = written_out(alloc, wanted.trim_start())?;
    let lines = wanted.lines().count() as u64;
    let (text, wanted) = (text.as_bytes(), (wanted.as_str(), lines));
    Ok(
        is_answered(alloc, text, 1, wanted)?
            && is_answered(alloc, text, 3, wanted)?
            && is_answered(alloc, text, 1000000, wanted)?,
    )
}

#[test]
fn lines_are_answered(rt: HostRuntime) {
    for row in TEXTS.lines() {
        assert!(rt; row_holds(rt.alloc(), row).expect(&rt, "memory"), "{row}");
    }
}
