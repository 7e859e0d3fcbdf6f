//! Answers rows, and compares each answer with the lines below its row. A line `== NAME` says which part begins:
//! `outcomes`, `halves` or `sessions`. The head of the module of that name says what its rows are, and
//! the head of `rows` says how they are written. The program writes the rows that are missed, each with the answer that
//! was wanted (`-`) and the one that it got (`+`), and after each part how many of its rows hold.
#![tactic(auto)]

mod comparing;
mod forms;
mod gates;
mod granting;
mod halves;
mod outcomes;
mod parts;
mod pools;
mod requests;
mod rows;
mod sessions;
mod told;
mod writing;

use crate::parts::try_parts;
use std::io::{self, Write};
use std::marker::Brand;
use std::sync::ledger::Blank;

fn main(rt: HostRuntime) -> io::Result<()> {
    let alloc = rt.alloc();
    let text = io::read_to_string(alloc, rt.reader())?;
    let (told, done) = try_parts::<Brand, _>(&rt, alloc, Blank::new(3), text);
    let mut writer = io::writer(&rt);
    writer.write_all(told.as_slice())?;
    writer.flush()?;
    Ok(done?)
}
