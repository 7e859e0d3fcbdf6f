//! Texts that are said on connections.
use crate::limits::LIMITS;
use crate::standing::{put_standing, roster};
use crate::told::{ROOM, Refusal, Told, put};
use nesl_eval_helpers::{Free, NoHelpers};
use nesl_house::lease::Receipt;
use nesl_house::roster::NewFault;
use nesl_house::table::{Closed, Table};
use nesl_line::device::Device;
use nesl_line::exchange::End;
use nesl_line::serve::{Served, serve};
use std::alloc::{AllocError, Global};
use std::sync::Wait;
use std::thread::Threads;

fn opened(alloc: Global) -> Result<Table, Refusal> {
    let roster = roster(alloc)?;
    match Table::new(alloc, roster.as_slice(), LIMITS) {
        Ok(table) => Ok(table),
        Err(NewFault::Memory) => Err(Refusal::Call),
        Err(_) => Err(Refusal::Own),
    }
}

// One connection, and what is written on it.
fn served<R: Threads + Wait + Sync>(
    rt: &R,
    alloc: Global,
    table: &Table,
    text: &str,
) -> Result<(Served, Vec<u8>), AllocError> {
    let mut reader = Device::new(text.as_bytes());
    let mut writer = Device::new(Vec::with_capacity(alloc, ROOM)?);
    let served = serve(
        rt,
        alloc,
        &mut reader,
        &mut writer,
        table,
        &NoHelpers,
        &Free,
    );
    Ok((served, writer.into_inner()))
}

// One connection. Where it wanted memory it is served once more.
fn visit<R: Threads + Wait + Sync>(
    rt: &R,
    alloc: Global,
    table: &Table,
    text: &str,
    told: &mut Told,
) -> Result<Option<Receipt>, Refusal> {
    let (mut ran, mut answers) = served(rt, alloc, table, text)?;
    if ran.end == End::NoMemory {
        told.repeat(ran.lines == 0 && answers.is_empty() && ran.receipt.is_none());
        (ran, answers) = served(rt, alloc, table, text)?;
    }
    if ran.end != End::Input {
        return Err(Refusal::Own);
    }
    told.answers.extend_from_slice(answers.as_slice())?;
    Ok(ran.receipt)
}

fn keep(receipts: &mut Vec<Receipt>, receipt: Option<Receipt>) -> Result<(), AllocError> {
    if let Some(receipt) = receipt {
        receipts.push(receipt)?;
    }
    Ok(())
}

// The connections of a text, each of which begins with a line that names a user, and their receipts.
fn visit_all<R: Threads + Wait + Sync>(
    rt: &R,
    alloc: Global,
    table: &Table,
    text: &str,
    told: &mut Told,
) -> Result<Vec<Receipt>, Refusal> {
    let mut receipts = Vec::with_capacity(alloc, 16)?;
    let mut connection = String::new(alloc);
    for line in text.lines() {
        if line.starts_with("user ") && !connection.is_empty() {
            let receipt = visit(rt, alloc, table, connection.as_str(), told)?;
            keep(&mut receipts, receipt)?;
            connection.clear();
        }
        connection.push_str(line)?;
        connection.push('\n')?;
    }
    let receipt = visit(rt, alloc, table, connection.as_str(), told)?;
    keep(&mut receipts, receipt)?;
    Ok(receipts)
}

// Writes what the sessions of a closed table are, and what was counted.
fn put_closed(
    alloc: Global,
    closed: &Closed,
    recorded: &[Receipt],
    standing: &mut Vec<u8>,
) -> Result<(), AllocError> {
    put_standing(alloc, &closed.house, standing)?;
    let lines = closed.lines;
    put(standing, format!(in alloc; "{lines} lines; recorded:"))?;
    for receipt in recorded {
        let Receipt { place, recorded } = *receipt;
        put(standing, format!(in alloc; " {recorded} of place {place}"))?;
    }
    standing.extend_from_slice(b"\n")
}

// Closes the table.
fn close(
    alloc: Global,
    table: Table,
    receipts: Vec<Receipt>,
    told: &mut Told,
) -> Result<(), Refusal> {
    let recorded = Vec::from_slice(alloc, receipts.as_slice())?;
    match table.close(receipts) {
        Ok(closed) => Ok(put_closed(alloc, &closed, recorded.as_slice(), &mut told.standing)?),
        Err(_) => Err(Refusal::Own),
    }
}

/// By `serve`, and `close` in the end.
pub fn visited<R: Threads + Wait + Sync>(
    rt: &R,
    alloc: Global,
    text: &str,
) -> Result<Told, Refusal> {
    let table = opened(alloc)?;
    let mut told = Told::new(alloc)?;
    let receipts = visit_all(rt, alloc, &table, text, &mut told)?;
    close(alloc, table, receipts, &mut told)?;
    Ok(told)
}
