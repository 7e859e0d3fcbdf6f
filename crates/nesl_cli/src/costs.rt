//! The costs of a batch's last line, for several values of `n`.
ghost use Rattle.std.specs.Prelude.{◌≡◌, ℕ, Bool, List, Option, IfErr, IfOk, false, map};
ghost use Rattle.nesl_session_meaning.specs.declared.limits.Limits.{Limits};
ghost use Rattle.nesl_line.specs.Batch.{AnswersAll};
ghost use Rattle.nesl_words.specs.Wanted.{limits_wanted};
ghost use Rattle.nesl_cli.specs.Program.{limits_by, BatchFails, IsAnsweredAnew};

use crate::failure::Failure;
use crate::run::open_house;
use linked_list_allocator::LocalHeap;
use nesl_house::house::House;
use nesl_house::manner::{InHeap, Plainly};
use nesl_kept::cells::{find_costs, find_fault};
use nesl_line::batch::answer_text;
use nesl_line::device::{Sink, Source};
use nesl_line::exchange::MOST_READS;
use nesl_line::tell;
use nesl_words::limit_words::LimitWords;
use nesl_words::words::CostsWords;
use std::alloc::{AllocError, Global};
use thiserror::Error;

/// Why costs could not be written.
#[derive(Clone, Copy, PartialEq, Eq, Debug, Error)]
pub enum CostsFault {
    #[error("batch: read fault")]
    Read,
    #[error("batch: write fault")]
    Write,
    #[error("batch: no memory")]
    Memory,
}

impl From<AllocError> for CostsFault {
    fn from(_error: AllocError) -> CostsFault {
        CostsFault::Memory
    }
}

/// The header row.
const HEAD: &[u8] = b"n,work,depth,fault\n";

/// The most digits of a value of `n`.
const MOST_DIGITS: usize = 18;

/// The most bytes of one read.
const CHUNK: usize = 4096;

// The batch that is run for each value. `limits` are those of each session, and `heap` is the size in bytes of the heap
// for evaluation, if there is to be one.
#[derive(Clone, Copy)]
struct Batch<'a> {
    users: &'a [&'a str],
    limits: LimitWords,
    heap: Option<usize>,
    lines: &'a [u8],
}

/// Writes the costs as CSV: a header, and a row for each value of `n`. The lines that are read are run anew for each
/// value, by the first user until a line names another. A row has the value, and the work and the depth of the last
/// answer, or else its fault.
pub(crate) fn write_costs<'a, S: Source, W: Sink>(
    alloc: Global,
    users: &[&'a str],
    costs: CostsWords<'a>,
    reader: &mut S,
    writer: &mut W,
) -> Result<(), Failure<'a>>
    ensures failed { IfErr result (λ failure. BatchFails failure false (limits_by (limits_wanted costs.entry.limits))
        (map (λ user. user.now) users.now)
        (S.left reader.old) (S.left reader.new) (W.held writer.old) (W.held writer.new)) }
{
    let values = split_values(alloc, costs.values)?;
    let _ = open_house(alloc, users, costs.limits)?;
    let batch = Batch {
        users,
        limits: costs.limits,
        heap: costs.heap,
        lines: &[],
    };
    match write_table(alloc, batch, values.as_slice(), reader, writer) {
        Ok(()) => Ok(()),
        Err(fault) => Err(Failure::Costs(fault)),
    }
}

// Reads the lines, and writes the header and a row for each value. The batch has no lines yet.
fn write_table<S: Source, W: Sink>(
    alloc: Global,
    batch: Batch<'_>,
    values: &[&str],
    reader: &mut S,
    writer: &mut W,
) -> Result<(), CostsFault> {
    let lines = read_lines(alloc, reader)?;
    let batch = Batch {
        lines: lines.as_slice(),
        ..batch
    };
    write_row(writer, HEAD)?;
    for value in values {
        let row = make_row(alloc, &batch, value)?;
        write_row(writer, row.as_slice())?;
    }
    Ok(())
}

// Splits a text at its commas into values, each of 1 to 18 digits.
fn split_values<'a>(alloc: Global, text: &'a str) -> Result<Vec<&'a str>, Failure<'a>>
    ensures { IfErr result (λ failure. (is_hinted : Bool) (limits : Limits) (users : List (List ℕ))
        (left held : Option (List ℕ)) → BatchFails failure is_hinted limits users left left held held) }
{
    let mut values = Vec::new(alloc);
    for value in text.split(',') {
        if !is_value(value) {
            return Err(Failure::Value(value));
        }
        if values.push(value).is_err() {
            return Err(Failure::Memory);
        }
    }
    Ok(values)
}

fn is_value(text: &str) -> bool {
    let bytes = text.as_bytes();
    !bytes.is_empty() && bytes.len() <= MOST_DIGITS && are_digits(bytes)
}

fn are_digits(bytes: &[u8]) -> bool {
    bytes.iter().all(|byte| byte.is_ascii_digit())
}

// Reads to the end of input.
fn read_lines<S: Source>(alloc: Global, reader: &mut S) -> Result<Vec<u8>, CostsFault> {
    let mut lines = Vec::new(alloc);
    let mut chunk = [0u8; CHUNK];
    for _ in 0..MOST_READS {
        match reader.read(&mut chunk) {
            Err(_) => return Err(CostsFault::Read),
            Ok(0) => return Ok(lines),
            Ok(count) => lines.extend_from_slice(&chunk[..count])?,
        }
    }
    Err(CostsFault::Read)
}

// Writes and flushes a row.
fn write_row<W: Sink>(writer: &mut W, row: &[u8]) -> Result<(), CostsFault> {
    if tell::say(writer, row) {
        Ok(())
    } else {
        Err(CostsFault::Write)
    }
}

// Runs the batch for a value, and returns its row.
fn make_row(alloc: Global, batch: &Batch<'_>, value: &str) -> Result<Vec<u8>, CostsFault> {
    let script = make_script(alloc, batch, value)?;
    let replies = run_script(alloc, batch, script.as_slice())?;
    Ok(format_row(alloc, value, find_last_line(replies.as_slice()))?)
}

// Puts the lines after two others, which select the first user and give `n` this value.
fn make_script(alloc: Global, batch: &Batch<'_>, value: &str) -> Result<Vec<u8>, AllocError> {
    let first = match batch.users.first() {
        Some(user) => *user,
        None => "",
    };
    let mut script = Vec::with_capacity(alloc, batch.lines.len().saturating_add(64))?;
    for part in [
        b"user ".as_slice(),
        first.as_bytes(),
        b"\nn = ",
        value.as_bytes(),
        b";\n",
        batch.lines,
    ] {
        script.extend_from_slice(part)?;
    }
    Ok(script)
}

// Runs these lines in a new house, and returns the replies.
fn run_script(alloc: Global, batch: &Batch<'_>, script: &[u8]) -> Result<Vec<u8>, CostsFault>
    ensures { IfOk result (λ replies.
        IsAnsweredAnew (limits_by (limits_wanted batch.now.limits)) (map (λ user. user.now) batch.now.users.now)
        script.now replies.items) }
{
    let Ok(mut house) = open_house(alloc, batch.users, batch.limits) else {
        return Err(CostsFault::Memory);
    };
    Ok(answer_script(alloc, &mut house, batch.heap, script)?)
}

// Has a house answer these lines, evaluated in a heap of this size if there is to be one.
fn answer_script(
    alloc: Global,
    house: &mut House,
    heap: Option<usize>,
    script: &[u8],
) -> Result<Vec<u8>, AllocError>
    ensures { IfOk result (λ replies. AnswersAll house.old script.now replies.items house.new) }
{
    match heap {
        None => answer_text(alloc, script, house, &Plainly),
        Some(size) => {
            let heap = LocalHeap::new(alloc, size)?;
            answer_text(alloc, script, house, &InHeap(&heap))
        }
    }
}

// Finds the last line of a text. Each line has a line end.
fn find_last_line(text: &[u8]) -> &[u8] {
    let lines = text.strip_suffix(b"\n".as_slice()).unwrap_or(text);
    match lines.iter().rposition(|byte| *byte == b'\n') {
        Some(end) => lines.get(end.saturating_add(1)..).unwrap_or(&[]),
        None => lines,
    }
}

// Formats the row of a value: the work and the depth of its last answer, or else its fault, or `no cost`.
fn format_row(alloc: Global, value: &str, answer: &[u8]) -> Result<Vec<u8>, AllocError> {
    let none = b"".as_slice();
    let (work, depth, fault) = match find_costs(answer) {
        Some(costs) => (costs.work, costs.depth, none),
        None => (none, none, find_fault(answer).unwrap_or(b"no cost")),
    };
    let mut row = Vec::new(alloc);
    for part in [
        value.as_bytes(),
        b",",
        work,
        b",",
        depth,
        b",",
        fault,
        b"\n",
    ] {
        row.extend_from_slice(part)?;
    }
    Ok(row)
}
