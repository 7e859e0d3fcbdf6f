//! The help on the built-in functions. Their types come from nesl_builtins.

use crate::rows::{Row, SCALARS, SEQUENCES, builtin_of, row_of};
use crate::wrapped::{MOST_COLUMNS, put_wrapped};
use nesl_builtins::{Builtin, scheme};
use nesl_types::{Context, scheme_text};
use std::alloc::{AllocError, Global};

/// The indent of each line below a type.
const INDENT: &[u8] = b"  ";

/// The indent of each continued line.
const BELOW: &[u8] = b"    ";

/// Writes the help on the functions with this name or sign. Returns whether there are any.
pub fn put_functions(alloc: Global, out: &mut Vec<u8>, name: &str) -> Result<bool, AllocError> {
    let Some(builtin) = builtin_of(name) else {
        return Ok(false);
    };
    put_type(alloc, out, name, builtin)?;
    if let Some(row) = row_with(SCALARS, name) {
        put_row(alloc, out, row)?;
    }
    if let Some(row) = row_with(SEQUENCES, name) {
        put_row(alloc, out, row)?;
    }
    Ok(true)
}

/// Writes the types of the functions with this name or sign. Returns whether there are any.
pub fn put_types(alloc: Global, out: &mut Vec<u8>, name: &str) -> Result<bool, AllocError> {
    match builtin_of(name) {
        Some(builtin) => {
            put_type(alloc, out, name, builtin)?;
            Ok(true)
        }
        None => Ok(false),
    }
}

// Finds the line of a table that has this name.
fn row_with<'a>(table: &'a str, name: &str) -> Option<Row<'a>> {
    for line in table.lines() {
        if let Some(row) = row_of(line) {
            if has_name(row.names, name) {
                return Some(row);
            }
        }
    }
    None
}

fn has_name(names: &str, name: &str) -> bool {
    for one in names.split(' ') {
        if one == name {
            return true;
        }
    }
    false
}

/// Writes the names of all functions, in lines of at most `MOST_COLUMNS` columns.
pub fn put_names(out: &mut Vec<u8>) -> Result<(), AllocError> {
    out.push(b' ')?;
    let column = put_names_of(SCALARS, 1, out)?;
    let _ = put_names_of(SEQUENCES, column, out)?;
    out.push(b'\n')?;
    Ok(())
}

// Writes the names of a table from this column on, and returns the column after them.
fn put_names_of(table: &str, column: usize, out: &mut Vec<u8>) -> Result<usize, AllocError> {
    let mut column = column;
    for line in table.lines() {
        if let Some(row) = row_of(line) {
            column = put_some(row.names, column, out)?;
        }
    }
    Ok(column)
}

fn put_some(names: &str, column: usize, out: &mut Vec<u8>) -> Result<usize, AllocError> {
    let mut column = column;
    for name in names.split(' ') {
        if column.saturating_add(name.len()) >= MOST_COLUMNS {
            out.extend_from_slice(b"\n ")?;
            column = 1;
        }
        out.push(b' ')?;
        out.extend_from_slice(name.as_bytes())?;
        column = column.saturating_add(name.len()).saturating_add(1);
    }
    Ok(column)
}

fn put_type(
    alloc: Global,
    out: &mut Vec<u8>,
    name: &str,
    builtin: Builtin,
) -> Result<(), AllocError> {
    let context: Context<u64> = Context::new(alloc);
    let scheme = scheme(alloc, builtin)?;
    let text = scheme_text(alloc, &scheme, &context)?;
    out.extend_from_slice(name.as_bytes())?;
    out.extend_from_slice(b" : ")?;
    out.extend_from_slice(text.as_slice())?;
    out.push(b'\n')?;
    Ok(())
}

fn put_row(alloc: Global, out: &mut Vec<u8>, row: Row<'_>) -> Result<(), AllocError> {
    let mut text = Vec::from_slice(alloc, row.called.as_bytes())?;
    if !row.what.is_empty() && !row.what.as_bytes().starts_with(b";") {
        text.extend_from_slice(b": ")?;
    }
    text.extend_from_slice(row.what.as_bytes())?;
    out.extend_from_slice(INDENT)?;
    put_wrapped(out, text.as_slice(), INDENT.len(), BELOW)?;
    put_cost(out, row.lengths)
}

fn put_cost(out: &mut Vec<u8>, lengths: &str) -> Result<(), AllocError> {
    if lengths.is_empty() {
        return out.extend_from_slice(b"  work 1 and depth 1, besides the arguments\n");
    }
    match lengths.split_once("R ") {
        Some((_, lengths)) => {
            put_work(out, lengths)?;
            out.extend_from_slice(b"  depth 1 + the binary digits of ")?;
            out.extend_from_slice(lengths.as_bytes())?;
            out.push(b'\n')?;
            put_lengths(out, lengths)
        }
        None => {
            put_work(out, lengths)?;
            out.extend_from_slice(b"  depth 1\n")?;
            put_lengths(out, lengths)
        }
    }
}

// Writes the work, which depends on the lengths of sequences.
fn put_work(out: &mut Vec<u8>, lengths: &str) -> Result<(), AllocError> {
    out.extend_from_slice(b"  work 1 + ")?;
    if lengths != "0" {
        out.extend_from_slice(lengths.as_bytes())?;
        out.extend_from_slice(b" + ")?;
    }
    out.extend_from_slice(b"the nodes of the result below its root\n")
}

// Explains the letters for the lengths.
fn put_lengths(out: &mut Vec<u8>, lengths: &str) -> Result<(), AllocError> {
    if lengths == "n" {
        return out.extend_from_slice(b"  n is the length of the sequence\n");
    }
    if lengths == "n + m" {
        return out.extend_from_slice(b"  n and m are the lengths of the two sequences\n");
    }
    Ok(())
}
