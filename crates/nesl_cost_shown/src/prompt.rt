//! An account as the prompt shows it: each text with its shares below it, the places with most work, the turns that
//! decide, and the time on p processors.

use crate::bounds::bounds_on;
use crate::parts::{Part, Text, part_of, parts_of, rows_in};
use crate::printed::Line;
use crate::table::{PlaceTable, is_home};
use nesl_cost_rows::charge::Charge;
use nesl_lex::token::Span;
use std::alloc::{AllocError, Global};

/// A longer text isn't shown.
const LONGEST: usize = 2_000;

/// Texts are cut after so many bytes, and have their rulers below each piece.
const PIECE: usize = 72;

/// The columns where a text begins, where the text of a node ends, and where each number ends.
const TEXT: usize = 7;

const NODE: usize = 38;

const ENTERED: usize = 48;

const WORK: usize = 58;

const WORK_SHARE: usize = 62;

const DEPTH: usize = 73;

const DEPTH_SHARE: usize = 77;

/// The most bytes of a name or of a node in a line of text.
const SHORT: usize = 30;

/// The most places in the table, the most apply-to-eaches of which turns are listed, and the most turns of each.
const MOST_ROWS: usize = 6;

const MOST_EACHES: usize = 4;

const MOST_TURNS: usize = 3;

const PROCESSORS: [u64; 7] = [2, 4, 8, 16, 32, 64, 128];

/// The column of the first number of processors, and the columns of each.
const LABEL: usize = 8;

const TIME: usize = 10;

/// How an evaluation ended.
#[derive(Clone, Copy)]
pub enum Ended<'a> {
    Value,
    /// By a fault at this place.
    Fault { home: Option<&'a [u8]>, span: Span },
    /// It would have taken more than the budget.
    Over,
}

impl<'a> Ended<'a> {
    // Whether there is a critical path, which is only that of a value.
    fn has_path(self) -> bool {
        match self {
            Ended::Value => true,
            _ => false,
        }
    }
}

/// What a ruler shows of a part.
#[derive(Clone, Copy)]
enum Measure {
    Work,
    Depth,
}

/// The lines below a reply.
pub fn shown(
    alloc: Global,
    texts: &[Text<'_>],
    table: &PlaceTable<'_>,
    ended: Ended<'_>,
) -> Result<Vec<Line>, AllocError> {
    let mut lines = Vec::new(alloc);
    for text in texts {
        put_source(alloc, &mut lines, text, table, ended)?;
    }
    put_table(alloc, &mut lines, texts, table, ended)?;
    match ended {
        Ended::Value => {
            put_turns(alloc, &mut lines, texts, table)?;
            put_times(alloc, &mut lines, table)?;
        }
        Ended::Fault { home, span } => put_place(alloc, &mut lines, texts, home, span)?,
        Ended::Over => {}
    }
    Ok(lines)
}

// A text with the shares below its parts, after a blank line.
fn put_source(
    alloc: Global,
    lines: &mut Vec<Line>,
    text: &Text<'_>,
    table: &PlaceTable<'_>,
    ended: Ended<'_>,
) -> Result<(), AllocError> {
    let rows = rows_in(alloc, table, text.home)?;
    let whole = Span {
        start: 0,
        end: text.bytes.len(),
    };
    lines.push(Line::new(alloc))?;
    let head = head_of(alloc, text, part_of(whole, rows.as_slice())?, table, ended)?;
    lines.push(head)?;
    if text.bytes.len() > LONGEST {
        return Ok(());
    }
    let parts = parts_of(alloc, text.bytes, rows.as_slice())?;
    let work = ruler(alloc, parts.as_slice(), Measure::Work, table.work())?;
    let depth = if ended.has_path() {
        ruler(alloc, parts.as_slice(), Measure::Depth, table.depth())?
    } else {
        Vec::new(alloc)
    };
    for (place, piece) in text.bytes.chunks(PIECE).enumerate() {
        put_piece(alloc, lines, b"", piece)?;
        put_piece(alloc, lines, b"work%", piece_at(work.as_slice(), place))?;
        put_piece(alloc, lines, b"path%", piece_at(depth.as_slice(), place))?;
    }
    Ok(())
}

fn head_of(
    alloc: Global,
    text: &Text<'_>,
    part: Part,
    table: &PlaceTable<'_>,
    ended: Ended<'_>,
) -> Result<Line, AllocError> {
    let mut line = Line::new(alloc);
    put_home(&mut line, text.home)?;
    line.put_text(b": work ")?;
    line.put_number(part.work)?;
    line.put_text(b" of ")?;
    line.put_number(table.work())?;
    if ended.has_path() {
        line.put_text(b", depth ")?;
        line.put_number(part.depth)?;
        line.put_text(b" of ")?;
        line.put_number(table.depth())?;
    }
    Ok(line)
}

fn put_home(line: &mut Line, home: Option<&[u8]>) -> Result<(), AllocError> {
    match home {
        None => line.put_text(b"in the line"),
        Some(name) => {
            line.put_text(b"in `")?;
            put_short(line, name)?;
            line.put(b'`')
        }
    }
}

// The front of a text, if it is too long.
fn put_short(line: &mut Line, text: &[u8]) -> Result<(), AllocError> {
    match text.get(..SHORT) {
        Some(front) => {
            line.put_text(front)?;
            line.put_text(b"..")
        }
        None => line.put_text(text),
    }
}

// The piece of a ruler at a place.
fn piece_at(ruler: &[u8], place: usize) -> &[u8] {
    match ruler.chunks(PIECE).nth(place) {
        Some(piece) => piece,
        None => b"",
    }
}

// A piece of a text or of a ruler after its label. There is no line for a ruler without shares.
fn put_piece(
    alloc: Global,
    lines: &mut Vec<Line>,
    label: &[u8],
    piece: &[u8],
) -> Result<(), AllocError> {
    let blanks = piece.iter().rev().take_while(|byte| **byte == b' ').count();
    let len = piece.len().saturating_sub(blanks);
    if len == 0 {
        return Ok(());
    }
    let mut line = Line::new(alloc);
    line.put_text(label)?;
    line.fill(TEXT)?;
    line.put_text(piece.get(..len).unwrap_or(b""))?;
    lines.push(line)?;
    Ok(())
}

// Below each part its share in percent, in a row as long as the part. A share that doesn't fit is `+`.
fn ruler(
    alloc: Global,
    parts: &[Part],
    measure: Measure,
    whole: u64,
) -> Result<Vec<u8>, AllocError> {
    let mut row: Vec<u8> = Vec::new(alloc);
    for part in parts {
        let share = match measure {
            Measure::Work => part.work,
            Measure::Depth => part.depth,
        };
        if share > 0 {
            for _ in row.len()..part.span.start {
                row.push(b' ')?;
            }
            put_share(&mut row, percent(share, whole), part.span.end)?;
        }
    }
    Ok(row)
}

// A share, and a row of `-` up to this place.
fn put_share(row: &mut Vec<u8>, share: u64, end: usize) -> Result<(), AllocError> {
    let mut buffer = itoa::Buffer::new();
    let digits = buffer.format(share).as_bytes();
    if row.len().saturating_add(digits.len()) <= end {
        row.extend_from_slice(digits)?;
    } else {
        row.push(b'+')?;
    }
    for _ in row.len()..end {
        row.push(b'-')?;
    }
    Ok(())
}

// The part of the whole in percent, rounded.
fn percent(part: u64, whole: u64) -> u64 {
    if whole == 0 {
        return 0;
    }
    part.saturating_mul(100).saturating_add(whole / 2) / whole
}

// The bytes of a node in its text.
fn node_at<'t>(texts: &[Text<'t>], home: Option<&[u8]>, span: Span) -> &'t [u8] {
    for text in texts {
        if is_home(text.home, home) {
            return text.bytes.get(span.start..span.end).unwrap_or(b"");
        }
    }
    b""
}

// A node's bytes, or the front of them, or its place where the text isn't known.
fn put_node(
    line: &mut Line,
    texts: &[Text<'_>],
    home: Option<&[u8]>,
    span: Span,
) -> Result<(), AllocError> {
    let node = node_at(texts, home, span);
    if node.is_empty() {
        put_span(line, span)
    } else {
        put_short(line, node)
    }
}

fn put_span(line: &mut Line, span: Span) -> Result<(), AllocError> {
    line.put_text(b"at ")?;
    line.put_number(span.start as u64)?;
    line.put_text(b"..")?;
    line.put_number(span.end as u64)
}

// Where in a text the evaluation ended.
fn put_place(
    alloc: Global,
    lines: &mut Vec<Line>,
    texts: &[Text<'_>],
    home: Option<&[u8]>,
    span: Span,
) -> Result<(), AllocError> {
    let mut line = Line::new(alloc);
    line.put_text(b"the fault is ")?;
    put_home(&mut line, home)?;
    line.put_text(b": ")?;
    put_node(&mut line, texts, home, span)?;
    lines.push(Line::new(alloc))?;
    lines.push(line)?;
    Ok(())
}

fn put_table(
    alloc: Global,
    lines: &mut Vec<Line>,
    texts: &[Text<'_>],
    table: &PlaceTable<'_>,
    ended: Ended<'_>,
) -> Result<(), AllocError> {
    let totals = Totals::of(table, ended);
    lines.push(Line::new(alloc))?;
    lines.push(titles(alloc, totals)?)?;
    let best = largest(alloc, table.rows())?;
    let mut rest = Sums::none();
    let mut others: u64 = 0;
    for (place, row) in table.rows().iter().enumerate() {
        if row.decides.is_none() && !best.contains(&place) {
            rest.add(row);
            others = others.saturating_add(1);
        }
    }
    for place in &best {
        if let Some(row) = table.rows().get(*place) {
            put_row(alloc, lines, texts, row, totals)?;
        }
    }
    if others > 0 {
        let mut line = Line::new(alloc);
        line.fill(TEXT)?;
        line.put_number(others)?;
        line.put_text(b" other nodes")?;
        put_sums(line, lines, rest, totals)?;
    }
    let mut line = Line::new(alloc);
    line.fill(TEXT)?;
    line.put_text(b"all")?;
    put_sums(line, lines, all_of(table), totals)
}

// All entries, and the work and the depth of the evaluation.
fn all_of(table: &PlaceTable<'_>) -> Sums {
    let mut all = Sums::none();
    for row in table.rows() {
        if row.decides.is_none() {
            all.add(row);
        }
    }
    Sums {
        entries: all.entries,
        work: table.work(),
        depth: table.depth(),
    }
}

/// The whole work of an evaluation, and its depth if it has a value.
#[derive(Clone, Copy)]
struct Totals {
    work: u64,
    depth: Option<u64>,
}

impl Totals {
    fn of(table: &PlaceTable<'_>, ended: Ended<'_>) -> Self {
        let depth = if ended.has_path() {
            Some(table.depth())
        } else {
            None
        };
        Totals {
            work: table.work(),
            depth,
        }
    }
}

fn titles(alloc: Global, totals: Totals) -> Result<Line, AllocError> {
    let mut line = Line::new(alloc);
    line.put_text(b"where")?;
    line.fill(TEXT)?;
    line.put_text(b"node")?;
    line.fill(ENTERED.saturating_sub(7))?;
    line.put_text(b"entered")?;
    line.fill(WORK.saturating_sub(4))?;
    line.put_text(b"work")?;
    if totals.depth.is_some() {
        line.fill(DEPTH.saturating_sub(5))?;
        line.put_text(b"depth")?;
    }
    Ok(line)
}

/// Entries, work and depth of several rows.
#[derive(Clone, Copy)]
struct Sums {
    entries: u64,
    work: u64,
    depth: u64,
}

impl Sums {
    fn none() -> Self {
        Sums {
            entries: 0,
            work: 0,
            depth: 0,
        }
    }

    fn add(&mut self, row: &Charge<'_>) {
        self.entries = self.entries.saturating_add(row.entries);
        self.work = self.work.saturating_add(row.work);
        self.depth = self.depth.saturating_add(row.depth);
    }
}

// The places of the rows with most work, the greatest first.
fn largest(alloc: Global, rows: &[Charge<'_>]) -> Result<Vec<usize>, AllocError> {
    let mut best: Vec<usize> = Vec::new(alloc);
    for _ in 0..MOST_ROWS {
        let mut found: Option<usize> = None;
        let mut most = 0;
        for (place, row) in rows.iter().enumerate() {
            if row.work > most && !best.contains(&place) {
                found = Some(place);
                most = row.work;
            }
        }
        match found {
            Some(place) => best.push(place)?,
            None => break,
        }
    }
    Ok(best)
}

fn put_row(
    alloc: Global,
    lines: &mut Vec<Line>,
    texts: &[Text<'_>],
    row: &Charge<'_>,
    totals: Totals,
) -> Result<(), AllocError> {
    let mut line = Line::new(alloc);
    line.put_cut(row.home.unwrap_or(b"line"), TEXT.saturating_sub(1))?;
    line.fill(TEXT)?;
    let node = node_at(texts, row.home, row.span);
    if node.is_empty() {
        put_span(&mut line, row.span)?;
    } else {
        line.put_cut(node, NODE)?;
    }
    let mut sums = Sums::none();
    sums.add(row);
    put_sums(line, lines, sums, totals)
}

// Ends a line with sums and their shares.
fn put_sums(
    line: Line,
    lines: &mut Vec<Line>,
    sums: Sums,
    totals: Totals,
) -> Result<(), AllocError> {
    let mut line = line;
    line.put_before(sums.entries, ENTERED)?;
    line.put_before(sums.work, WORK)?;
    line.put_before(percent(sums.work, totals.work), WORK_SHARE)?;
    line.put(b'%')?;
    if let Some(depth) = totals.depth {
        line.put_before(sums.depth, DEPTH)?;
        line.put_before(percent(sums.depth, depth), DEPTH_SHARE)?;
        line.put(b'%')?;
    }
    lines.push(line)?;
    Ok(())
}

// The turns through which the path goes, of the first apply-to-eaches in the order of the texts.
fn put_turns(
    alloc: Global,
    lines: &mut Vec<Line>,
    texts: &[Text<'_>],
    table: &PlaceTable<'_>,
) -> Result<(), AllocError> {
    lines.push(Line::new(alloc))?;
    let mut last: Option<Charge<'_>> = None;
    let mut line = Line::new(alloc);
    let mut eaches: usize = 0;
    let mut turns: usize = 0;
    for row in table.rows() {
        let Some(turn) = row.decides else {
            continue;
        };
        if !is_same_each(last, row) {
            if eaches > 0 {
                lines.push(line)?;
            }
            line = Line::new(alloc);
            if eaches == MOST_EACHES {
                break;
            }
            eaches = eaches.saturating_add(1);
            turns = 0;
            line.put_text(b"path: in ")?;
            put_node(&mut line, texts, row.home, row.span)?;
        }
        put_turn(&mut line, turn, row.entries, turns)?;
        turns = turns.saturating_add(1);
        last = Some(*row);
    }
    if line.len() > 0 {
        lines.push(line)?;
    }
    Ok(())
}

fn is_same_each(last: Option<Charge<'_>>, row: &Charge<'_>) -> bool {
    match last {
        Some(last) => is_home(last.home, row.home) && last.span == row.span,
        None => false,
    }
}

// A turn after others of its apply-to-each.
fn put_turn(line: &mut Line, turn: u64, times: u64, others: usize) -> Result<(), AllocError> {
    if others > MOST_TURNS {
        return Ok(());
    }
    if others == MOST_TURNS {
        return line.put_text(b", ..");
    }
    if others > 0 {
        line.put(b',')?;
    }
    line.put_text(b" turn ")?;
    line.put_number(turn)?;
    if times > 1 {
        line.put_text(b" (")?;
        line.put_number(times)?;
        line.put_text(b" times)")?;
    }
    Ok(())
}

// The time of the account on p processors, level by level.
fn put_times(
    alloc: Global,
    lines: &mut Vec<Line>,
    table: &PlaceTable<'_>,
) -> Result<(), AllocError> {
    let mut head = Line::new(alloc);
    head.put_text(b"time on p processors, level by level, at least and at most:")?;
    let mut numbers = Line::new(alloc);
    let mut least = Line::new(alloc);
    let mut most = Line::new(alloc);
    numbers.put_text(b"  p")?;
    least.put_text(b"  least")?;
    most.put_text(b"  most")?;
    let mut column = LABEL;
    for processors in &PROCESSORS {
        column = column.saturating_add(TIME);
        if *processors > 0 {
            if let Some(bounds) = bounds_on(*processors, table.work(), table.depth()) {
                numbers.put_before(*processors, column)?;
                least.put_before(bounds.least, column)?;
                most.put_before(bounds.most, column)?;
            }
        }
    }
    lines.push(head)?;
    lines.push(numbers)?;
    lines.push(least)?;
    lines.push(most)?;
    Ok(())
}
