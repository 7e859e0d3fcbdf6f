//! Parts of a text side by side, with what is charged within each.
ghost use Rattle.std.specs.Prelude.{◌≡◌, ◌+◌, IfOk, OnOk};
ghost use Rattle.nesl_cost_shown.specs.Parts.{depth_in_span, depth_within, is_in, work_in_span, work_within};

use crate::table::{PlaceTable, is_home, sum_of};
use nesl_cost_rows::charge::Charge;
use nesl_lex::token::Span;
use std::alloc::{AllocError, Global};

/// A part with more bytes is cut into its own parts, if its share is large.
const WIDEST: usize = 26;

/// A share is large if it is more than this part of the text's.
const LARGE: u64 = 12;

/// The text of a line, or of a function's definition.
#[derive(Clone, Copy)]
pub struct Text<'a> {
    /// The function's name, or `None` for the line.
    pub home: Option<&'a [u8]>,
    pub bytes: &'a [u8],
}

/// A part of a text, and what is charged within its bytes.
#[derive(Clone, Copy)]
pub struct Part {
    pub span: Span,
    pub work: u64,
    pub depth: u64,
}

/// What these charges have within a span. `Err` is for sums above 64 bits.
pub fn part_of(span: Span, rows: &[Charge<'_>]) -> Result<Part, AllocError>
    ensures span { IfOk result (λ r. r.span ≡ span) }
    ensures work { IfOk result (λ r. r.work ≡ work_within span rows.now) }
    ensures depth { IfOk result (λ r. r.depth ≡ depth_within span rows.now) }
{
    let mut part = Part {
        span,
        work: 0,
        depth: 0,
    };
    for row in rows {
        add(&mut part, row)?;
    }
    Ok(part)
}

// Adds a charge to a part, if it is within it.
fn add(part: &mut Part, row: &Charge<'_>) -> Result<(), AllocError>
    ensures span { part.new.span ≡ part.old.span }
    ensures work { OnOk result (part.new.work ≡ part.old.work + work_in_span part.old.span row.now) }
    ensures depth { OnOk result (part.new.depth ≡ part.old.depth + depth_in_span part.old.span row.now) }
{
    if is_in(row.span, part.span) {
        part.work = sum_of(part.work, row.work)?;
        part.depth = sum_of(part.depth, row.depth)?;
    }
    Ok(())
}

fn is_in(one: Span, other: Span) -> bool
    ensures { result ≡ is_in one other }
{
    other.start <= one.start && one.end <= other.end
}

/// The charges in a text, without the turns that decide.
pub fn rows_in<'a>(
    alloc: Global,
    table: &PlaceTable<'a>,
    home: Option<&[u8]>,
) -> Result<Vec<Charge<'a>>, AllocError> {
    let mut rows = Vec::new(alloc);
    for row in table.rows() {
        if row.decides.is_none() && is_home(row.home, home) {
            rows.push(*row)?;
        }
    }
    Ok(rows)
}

/// The parts of a text, from left to right. These charges are in it, in the order of their spans.
pub fn parts_of(alloc: Global, bytes: &[u8], rows: &[Charge<'_>]) -> Result<Vec<Part>, AllocError> {
    let whole = Span {
        start: 0,
        end: bytes.len().saturating_add(1),
    };
    let least = (part_of(whole, rows)?.work / LARGE).max(1);
    let mut parts = Vec::new(alloc);
    let mut open = Vec::new(alloc);
    put_below(alloc, whole, rows, &mut open)?;
    for _ in 0..=rows.len() {
        let Some(span) = open.pop() else {
            break;
        };
        let part = part_of(span, rows)?;
        let before = open.len();
        if len_of(span) > WIDEST && part.work > least {
            put_below(alloc, span, rows, &mut open)?;
        }
        if open.len() == before {
            parts.push(part)?;
        }
    }
    Ok(parts)
}

fn len_of(span: Span) -> usize {
    span.end.saturating_sub(span.start)
}

// Adds the largest spans of charges that are within a larger span, the last one first.
fn put_below(
    alloc: Global,
    span: Span,
    rows: &[Charge<'_>],
    open: &mut Vec<Span>,
) -> Result<(), AllocError> {
    let mut below: Vec<Span> = Vec::new(alloc);
    for row in rows {
        if !is_in(row.span, span) || row.span == span {
            continue;
        }
        match below.pop() {
            None => below.push(row.span)?,
            Some(last) if is_in(last, row.span) => below.push(row.span)?,
            Some(last) if is_in(row.span, last) => below.push(last)?,
            Some(last) => {
                below.push(last)?;
                below.push(row.span)?;
            }
        }
    }
    for span in below.iter().rev() {
        open.push(*span)?;
    }
    Ok(())
}
