//! The ways in which a text with answers is said.
use crate::kept::{has_refused, is_same, kept};
use crate::rows::{Tally, Text};
use crate::talk::said;
use crate::told::{Refusal, Told, put, put_line};
use crate::visits::visited;
use std::alloc::{AllocError, Global};
use std::sync::Wait;
use std::thread::Threads;

fn tell_once<R: Threads + Wait + Sync>(
    rt: &R,
    alloc: Global,
    way: &str,
    text: &str,
) -> Result<Told, Refusal> {
    if way == "serve" {
        visited(rt, alloc, text)
    } else {
        said(alloc, text, way)
    }
}

// What comes of a text. A house or a table that wants memory is made once more.
fn tell<R: Threads + Wait + Sync>(
    rt: &R,
    alloc: Global,
    way: &str,
    text: &str,
) -> Result<Told, AllocError> {
    match tell_once(rt, alloc, way, text) {
        Ok(told) => Ok(told),
        Err(Refusal::Own) => Err(AllocError),
        Err(Refusal::Call) => match tell_once(rt, alloc, way, text) {
            Ok(mut told) => {
                told.repeat(true);
                Ok(told)
            }
            Err(_) => Err(AllocError),
        },
    }
}

// Writes what was refused memory.
fn put_notes(alloc: Global, told: &Told, out: &mut Vec<u8>) -> Result<(), AllocError> {
    let repeated = told.repeated;
    if repeated > 0 {
        put(
            out,
            format!(in alloc; "@ {repeated} calls made once more\n"),
        )?;
    }
    if told.is_unchanged {
        return Ok(());
    }
    put_line(out, "@ ANOTHER STATE AFTER A REFUSAL")
}

// Writes whether the same comes of the kept lines alone.
fn put_alone<R: Threads + Wait + Sync>(
    rt: &R,
    alloc: Global,
    way: &str,
    lines: &str,
    told: &Told,
    out: &mut Vec<u8>,
) -> Result<(), AllocError> {
    let kept = kept(alloc, lines, told)?;
    let alone = tell(rt, alloc, way, kept.as_str())?;
    let is_same = is_same(told, &alone);
    put_line(
        out,
        if is_same {
            "@ the same by the kept lines alone"
        } else {
            "@ OTHERWISE BY THE KEPT LINES ALONE"
        },
    )
}

// Writes what of it isn't as wanted.
fn put_told<R: Threads + Wait + Sync>(
    rt: &R,
    alloc: Global,
    way: &str,
    lines: &str,
    told: &Told,
    out: &mut Vec<u8>,
) -> Result<(), AllocError> {
    put_notes(alloc, told, out)?;
    if has_refused(told) {
        put_alone(rt, alloc, way, lines, told, out)
    } else {
        Ok(())
    }
}

/// Says a text in each of its ways, and writes how many of its rows hold, after those that don't.
pub fn try_text<R: Threads + Wait + Sync>(
    rt: &R,
    alloc: Global,
    title: &str,
    text: &str,
    out: &mut Vec<u8>,
) -> Result<(), AllocError> {
    let text = Text::read(text);
    let lines = text.lines(alloc)?;
    let mut tally = Tally::new();
    for way in text.ways.split_whitespace() {
        let told = tell(rt, alloc, way, lines.as_str())?;
        tally.compare(way, &text, &told, out)?;
        put_told(rt, alloc, way, lines.as_str(), &told, out)?;
    }
    tally.put(alloc, title, out)
}

/// Asks for memory this many times, and does nothing with it.
pub fn request(alloc: Global, count: &str) -> Result<(), AllocError> {
    for _ in 0..count.parse::<u32>().unwrap_or(0) {
        let _byte = Box::new(alloc, 0)?;
    }
    Ok(())
}
