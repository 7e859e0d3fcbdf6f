//! Says texts to houses and tables, at prompts and to sessions, and writes the answers. Any request for memory may be
//! refused.
//!
//! A text begins with a line `== TITLE`, and is what follows it, up to the line end before the next one. One that
//! begins with `@by` has its answers beside its lines:
//!
//! - `@by WAY ..`: the ways in which it is said, each to a house or a table of its own;
//! - `> LINE`, and below it the answer; a line `user NAME` selects a user;
//! - `@standing`, and below it what the sessions are in the end;
//! - `@recorded`, and below it what the connections of `serve` recorded.
//!
//! The ways are
//!
//! - `say` and `run`, by a house's calls of these names;
//! - `batch`, and `heap`, which is a batch whose lines are evaluated in a heap of 65,536 bytes;
//! - `serve`, where each line `user NAME` begins a connection, and the table is closed in the end.
//!
//! The program writes the rows that are missed, after the way, each with what was wanted (`-`) and what it got (`+`);
//! and after each text how many of its rows hold, by all its ways.
//!
//! A call that wants memory in its own form is made once more, and that is written. A line that is answered for want of
//! memory isn't said again: then the kept lines alone are said in the same way, and it is written whether their answers
//! and the sessions are the same. A line `@requests COUNT` before the first text asks for memory this many times, and
//! does nothing with it.
//!
//! Of any other text all answers are written. The one that is titled `alone` is said line by line to sessions without a
//! prompt, with a hint on each fault (`src/alone.rt`). The words of the other titles say how a text is said:
//!
//! - `prompts` and `hints`: at a prompt that writes these; without either, at one that writes replies alone, which are
//!   compared with those that `converse_over` returns;
//! - `closed`: at a prompt that may open no files;
//! - `batch`: in a batch of ann and bob, with the hints of a prompt; `loud`: with one hint that has line ends;
//! - `heap`: a batch whose lines are evaluated in a heap of 65,536 bytes;
//! - `torn`: the read after the text fails; `short`: the writer takes 100 bytes and then fails.
//!
//! After the answers to these texts it is written how many lines were heard, and how that ended.
#![tactic(auto)]

mod alone;
mod devices;
mod drawer;
mod kept;
mod limits;
mod loud;
mod prompts;
mod rows;
mod standing;
mod talk;
mod texts;
mod told;
mod visits;
mod ways;

use crate::texts::put_texts;
use std::io::{self, Read, Write};

fn main(rt: HostRuntime) -> io::Result<()> {
    let alloc = rt.alloc();
    let mut text = Vec::new(alloc);
    rt.reader().read_to_end(&mut text)?;
    let mut out = Vec::new(alloc);
    let done = put_texts(&rt, alloc, text.as_slice(), &mut out);
    let mut writer = io::writer(&rt);
    writer.write_all(out.as_slice())?;
    writer.flush()?;
    Ok(done?)
}
