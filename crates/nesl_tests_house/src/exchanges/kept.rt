//! Connections whose user's session is kept in a file of its lines.
//!
//! A row is a connection: the user's file, the lines that are sent, and what is told of them, `FILE | SAID => TOLD`. A
//! `~` is a line end. After the answers are the number of lines that were restored and of those that were recorded, by
//! the receipts, and why the user was turned away.
use crate::exchanges::devices::{blank_paper, tape_of};
use crate::sample::table;
use nesl_eval_helpers::{Free, NoHelpers};
use nesl_house::lease::Receipt;
use nesl_house::table::Table;
use nesl_keep::device::{DeviceError, Folder, Opened};
use nesl_keep::memory::Memory;
use nesl_keeper::keeper::KeptFiles;
use nesl_line::device::Device as Stream;
use nesl_line::keeper::Archive;
use nesl_line::serve::{Room, ServedAndKept, serve_and_keep};
use std::alloc::{AllocError, Global};
use std::sync::Wait;
use std::thread::Threads;

/// Files in memory, each with these bytes when it is opened. What is written into them is dropped with their device.
#[derive(Drop)]
struct Shelf<'x> {
    bytes: &'x [u8],
}

impl Folder for Shelf<'_> {
    type Device = Memory;

    fn open(&self, alloc: Global, _user: &[u8]) -> Result<Opened<Memory>, DeviceError> {
        let bytes = Vec::from_slice(alloc, self.bytes)?;
        let device = Memory::new(alloc, Vec::from_slice(alloc, self.bytes)?);
        Ok(Opened { device, bytes })
    }
}

// What is answered to these lines on a connection to a table whose users' files have these bytes.
fn attend<R: Threads + Wait + Sync>(
    rt: &R,
    alloc: Global,
    table: &Table,
    file: &[u8],
    said: &[u8],
) -> (Vec<u8>, ServedAndKept) {
    let shelf = Shelf { bytes: file };
    let mut reader = Stream::new(tape_of(said, 7));
    let mut writer = Stream::new(blank_paper(alloc));
    let room = Room {
        alloc,
        table,
        helpers: &NoHelpers,
        gate: &Free,
    };
    let mut keeper = KeptFiles::new(&shelf).keeper();
    let ran = serve_and_keep(rt, &mut reader, &mut writer, &mut keeper, &room);
    (writer.into_inner().bytes, ran)
}

fn recorded(receipt: Option<Receipt>) -> u64 {
    receipt.map_or(0, |receipt| receipt.recorded)
}

// What came of a connection, as rows have it.
fn told(alloc: Global, answers: &[u8], ran: &ServedAndKept) -> Result<String, AllocError> {
    let answers = str::from_utf8(answers)
        .unwrap_or("")
        .replace(alloc, "\n", "~")?;
    let (restored, added) = (recorded(ran.restored), recorded(ran.served.receipt));
    match &ran.fault {
        Some(unkept) => format!(in alloc; "{answers} {restored} {added} {:?}", unkept.fault),
        None => format!(in alloc; "{answers} {restored} {added}"),
    }
}

// Plays the connection of a row, and adds its receipts to the others. Whether what is told of it is what is wanted.
fn is_told<R: Threads + Wait + Sync>(
    rt: &R,
    alloc: Global,
    table: &Table,
    receipts: &mut Vec<Receipt>,
    row: &str,
) -> Result<bool, AllocError> {
    let (asked, wanted) = row.split_once(" => ").unwrap_or((row, ""));
    let (file, said) = asked.split_once(" | ").unwrap_or((asked, ""));
    let (file, said) = (
        file.replace(alloc, "~", "\n")?,
        said.replace(alloc, "~", "\n")?,
    );
    let (answers, ran) = attend(rt, alloc, table, file.as_bytes(), said.as_bytes());
    for receipt in [ran.restored, ran.served.receipt] {
        if let Some(receipt) = receipt {
            receipts.push(receipt)?;
        }
    }
    Ok(told(alloc, answers.as_slice(), &ran)?.as_str() == wanted)
}

// The number of lines that a table counts when it is closed after the connections of these rows, if all of them hold.
fn counted<R: Threads + Wait + Sync>(
    rt: &R,
    alloc: Global,
    rows: &str,
) -> Result<Option<u128>, AllocError> {
    let table = table(alloc)?;
    let mut receipts = Vec::new(alloc);
    let mut are_told = true;
    for row in rows.lines() {
        are_told &= matches!(is_told(rt, alloc, &table, &mut receipts, row), Ok(true));
    }
    let closed = table.close(receipts).ok();
    Ok(if are_told {
        closed.map(|closed| closed.lines)
    } else {
        None
    })
}

/// A new session begins, and one that is kept comes back.
const RESTORED: &str =
    r" | user ann~x = 3;~x + 1;~ => user ann~x = 3 : int (work 1, depth 1)~it = 4 : int (work 3, depth 3)~ 0 2
>pazkindu 1 100000000 3~>x = 3;~>1 / 0;~>1 +\~. | user bob~2;~x;~:reset~ => user bob~it = 3 : int (work 3, depth 3)~it = 3 : int (work 1, depth 1)~reset: lines 5~ 6 3";

/// What follows the closed gate isn't restored.
const GATED: &str =
    ">pazkindu 1 100000000 0~>x = 3;~.x = 4;~ | user bob~x;~ => user bob~it = 3 : int (work 1, depth 1)~ 1 1";

/// A session in memory must be that of its file.
const IN_MEMORY: &str = r" | user ann~x = 3;~ => user ann~x = 3 : int (work 1, depth 1)~ 0 1
>pazkindu 1 100000000 3~>x = 3;~>1 / 0;~>1 +\~. | user ann~1;~ => fault busy~ 0 0 Strange(Session(1))
>pazkindu 1 100000000 0~>x = 4;~. | user ann~1;~ => fault busy~ 0 0 Strange(Session(2))
>pazkindu 1 100000000 0~>x = 3;~>4;~. | user ann~1;~ => fault busy~ 0 0 Strange(Session(3))
>pazkindu 1 100000000 0~>x = 3;~. | user ann~x;~ => user ann~it = 3 : int (work 1, depth 1)~ 0 1";

#[test]
fn sessions_come_back(rt: HostRuntime) {
    for (rows, lines) in [(RESTORED, 11), (GATED, 2), (IN_MEMORY, 2)] {
        let counted = counted(&rt, rt.alloc(), rows).expect(&rt, "memory");
        assert!(rt; counted == Some(lines), "{rows}");
    }
}

/// Files of another form, another work or another line.
const STRANGE: &str = ">pazkindu 2 100000000 0~. | user ann~1;~ => fault busy~ 0 0 Strange(Head)
>pazkindu 1 100000001 0~. | user ann~1;~ => fault busy~ 0 0 Strange(Head)
>pazkindu 1 0100000000 0~. | user ann~1;~ => fault busy~ 0 0 Strange(Head)
>x = 3;~. | user ann~1;~ => fault busy~ 0 0 Strange(Head)
>pazkindu 1 100000000 0~>1;~>:reset~. | user ann~1;~ => fault busy~ 0 0 Strange(Line(3))";

#[test]
fn files_that_do_not_fit(rt: HostRuntime) {
    assert!(rt; counted(&rt, rt.alloc(), STRANGE).expect(&rt, "memory") == Some(0));
}
