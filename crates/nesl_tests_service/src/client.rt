//! Clients of the service, and a table for it.
use nesl_house::table::Table;
use nesl_session::limits::Limits;
use std::alloc::Global;
use std::io;
use std::io::{Read, Write};
use std::net::{Net, Shutdown, SocketAddr, TcpStream};
use std::test::Fail;
use std::time::Duration;

const LIMITS: Limits = Limits {
    line_work: 1_000_000,
    session_work: 100_000_000,
    elements: 100_000,
    transcript_lines: 10_000,
    transcript_bytes: 1_048_576,
};

// How long an answer may take.
const SECONDS: u64 = 20;

// A table of ann and bob.
pub fn ann_and_bob(alloc: Global) -> Result<Table, Fail> {
    let mut roster = Vec::new(alloc);
    roster.push(Vec::from_slice(alloc, b"ann")?)?;
    roster.push(Vec::from_slice(alloc, b"bob")?)?;
    Ok(Table::new(alloc, roster.as_slice(), LIMITS)?)
}

// The same, or nothing if memory runs out.
pub fn seats_of_two(alloc: Global) -> Option<Table> {
    let mut roster = Vec::new(alloc);
    for name in ["ann", "bob"] {
        let name = Vec::from_slice(alloc, name.as_bytes()).ok()?;
        roster.push(name).ok()?;
    }
    Table::new(alloc, roster.as_slice(), LIMITS).ok()
}

pub fn connect<R: Net<Stream = TcpStream>>(rt: &R, address: SocketAddr) -> io::Result<TcpStream> {
    let stream = TcpStream::connect(rt, address)?;
    stream.set_read_timeout(Some(Duration::from_secs(SECONDS)))?;
    Ok(stream)
}

// Says a line, and reads its answer without the line end.
fn answer(alloc: Global, stream: &TcpStream, line: &str) -> io::Result<Vec<u8>> {
    let mut answer = Vec::new(alloc);
    let (mut reader, mut writer) = (stream, stream);
    writer.write_all(line.as_bytes())?;
    writer.write_all(b"\n")?;
    let mut byte = [0u8; 1];
    for _ in 0..10_000u32 {
        if reader.read(&mut byte)? == 0 || byte[0] == b'\n' {
            break;
        }
        answer.push(byte[0])?;
    }
    Ok(answer)
}

/// Says the lines of rows `LINE => ANSWER` on a connection, and compares what is answered to each.
pub fn hears(alloc: Global, client: &io::Result<TcpStream>, rows: &str) -> bool {
    let Ok(stream) = client else {
        return false;
    };
    for row in rows.lines() {
        let (line, wanted) = row.split_once(" => ").unwrap_or((row, ""));
        match answer(alloc, stream, line) {
            Ok(answer) if answer.as_slice() == wanted.as_bytes() => {}
            _ => return false,
        }
    }
    true
}

/// Says no more, and reads to the end. Whether nothing came.
pub fn ends(client: &io::Result<TcpStream>) -> bool {
    let Ok(stream) = client else {
        return false;
    };
    let mut reader = stream;
    let mut byte = [0u8; 1];
    stream.shutdown(Shutdown::Write).is_ok() && matches!(reader.read(&mut byte), Ok(0))
}
