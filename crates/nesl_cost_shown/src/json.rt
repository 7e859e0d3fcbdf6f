//! An account as one line of JSON.

use crate::parts::Text;
use crate::printed::Printed;
use crate::table::PlaceTable;
use nesl_cost_rows::charge::Charge;
use nesl_lex::token::Span;
use std::alloc::{AllocError, Global};

/// The line, without its end: work, depth, texts by their homes, places in the order of their texts, and the turns that
/// decide. The line's home is the empty name. A byte that ASCII doesn't print is written as the character of its code.
pub fn json_of(
    alloc: Global,
    texts: &[Text<'_>],
    table: &PlaceTable<'_>,
) -> Result<Printed, AllocError> {
    let mut out = Printed::new(alloc);
    put_key(&mut out, b"{", b"work")?;
    out.put_number(table.work())?;
    put_key(&mut out, b",", b"depth")?;
    out.put_number(table.depth())?;
    put_key(&mut out, b",", b"texts")?;
    put_texts(&mut out, texts)?;
    put_key(&mut out, b",", b"places")?;
    put_places(&mut out, table)?;
    put_key(&mut out, b",", b"turns")?;
    put_turns(&mut out, table)?;
    out.put(b'}')?;
    Ok(out)
}

// A key after this sign, and the colon.
fn put_key(out: &mut Printed, before: &[u8], key: &[u8]) -> Result<(), AllocError> {
    out.put_text(before)?;
    put_quoted(out, key)?;
    out.put(b':')
}

fn put_count(out: &mut Printed, before: &[u8], key: &[u8], count: u64) -> Result<(), AllocError> {
    put_key(out, before, key)?;
    out.put_number(count)
}

fn put_texts(out: &mut Printed, texts: &[Text<'_>]) -> Result<(), AllocError> {
    let mut before: &[u8] = b"{";
    for text in texts {
        put_key(out, before, text.home.unwrap_or(b""))?;
        put_quoted(out, text.bytes)?;
        before = b",";
    }
    if texts.is_empty() {
        out.put(b'{')?;
    }
    out.put(b'}')
}

fn put_places(out: &mut Printed, table: &PlaceTable<'_>) -> Result<(), AllocError> {
    out.put(b'[')?;
    let mut before: &[u8] = b"{";
    for row in table.rows() {
        if row.decides.is_none() {
            put_place(out, before, row)?;
            put_count(out, b",", b"entered", row.entries)?;
            put_count(out, b",", b"work", row.work)?;
            put_count(out, b",", b"depth", row.depth)?;
            out.put(b'}')?;
            before = b",{";
        }
    }
    out.put(b']')
}

fn put_turns(out: &mut Printed, table: &PlaceTable<'_>) -> Result<(), AllocError> {
    out.put(b'[')?;
    let mut before: &[u8] = b"{";
    for row in table.rows() {
        if let Some(turn) = row.decides {
            put_place(out, before, row)?;
            put_count(out, b",", b"turn", turn)?;
            put_count(out, b",", b"times", row.entries)?;
            out.put(b'}')?;
            before = b",{";
        }
    }
    out.put(b']')
}

fn put_place(out: &mut Printed, before: &[u8], row: &Charge<'_>) -> Result<(), AllocError> {
    put_key(out, before, b"in")?;
    put_quoted(out, row.home.unwrap_or(b""))?;
    put_key(out, b",", b"at")?;
    put_span(out, row.span)
}

fn put_span(out: &mut Printed, span: Span) -> Result<(), AllocError> {
    out.put(b'[')?;
    out.put_number(span.start as u64)?;
    out.put(b',')?;
    out.put_number(span.end as u64)?;
    out.put(b']')
}

fn put_quoted(out: &mut Printed, text: &[u8]) -> Result<(), AllocError> {
    out.put(b'"')?;
    for byte in text {
        match *byte {
            b'"' => out.put_text(b"\\\"")?,
            b'\\' => out.put_text(b"\\\\")?,
            32..=126 => out.put(*byte)?,
            other => {
                out.put_text(b"\\u00")?;
                put_digit(out, other / 16)?;
                put_digit(out, other % 16)?;
            }
        }
    }
    out.put(b'"')
}

// One of the sixteen digits.
fn put_digit(out: &mut Printed, digit: u8) -> Result<(), AllocError> {
    match b"0123456789abcdef".get(digit as usize) {
        Some(letter) => out.put(*letter),
        None => Ok(()),
    }
}
