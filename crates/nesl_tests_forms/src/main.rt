//! Cuts texts into forms, and compares the lines of the forms with those that are wanted. A case in `stdin` is a line
//! `== NAME`, the text, a line `->`, and the wanted lines. The text is without its last line end. The program writes
//! the cases that are missed, and how many there were.
#![tactic(auto)]

use nesl_forms::line::line_of;
use nesl_forms::scan::StretchKind;
use nesl_forms::text::cut;
use std::alloc::{AllocError, Global};
use std::io::{self, Write};

/// Which lines of a case come next.
#[derive(Clone, Copy, PartialEq, Eq)]
enum Part {
    Text,
    Wanted,
}

/// A case as it is read, and how many were tried.
#[derive(Drop)]
struct Cases {
    name: Vec<u8>,
    text: Vec<u8>,
    wanted: Vec<u8>,
    part: Part,
    tried: u32,
    missed: u32,
}

impl Cases {
    fn new(alloc: Global) -> Cases {
        Cases {
            name: Vec::new(alloc),
            text: Vec::new(alloc),
            wanted: Vec::new(alloc),
            part: Part::Text,
            tried: 0,
            missed: 0,
        }
    }

    // Reads one line of the table.
    fn read(&mut self, alloc: Global, line: &[u8], out: &mut Vec<u8>) -> Result<(), AllocError> {
        if let Some(name) = line.strip_prefix(b"== ".as_slice()) {
            self.end_case(alloc, out)?;
            self.name.extend_from_slice(name)?;
            return Ok(());
        }
        if line == b"->".as_slice() {
            self.part = Part::Wanted;
            return Ok(());
        }
        match self.part {
            Part::Text => put_line(&mut self.text, line),
            Part::Wanted => put_line(&mut self.wanted, line),
        }
    }

    // Tries the case that was read, if there is one.
    fn end_case(&mut self, alloc: Global, out: &mut Vec<u8>) -> Result<(), AllocError> {
        if !self.name.is_empty() {
            let _ = self.text.pop();
            let got = lines_of(alloc, self.text.as_slice())?;
            self.tried = self.tried.saturating_add(1);
            if got.as_slice() != self.wanted.as_slice() {
                self.missed = self.missed.saturating_add(1);
                put_line(out, self.name.as_slice())?;
                out.extend_from_slice(got.as_slice())?;
            }
        }
        self.name.clear();
        self.text.clear();
        self.wanted.clear();
        self.part = Part::Text;
        Ok(())
    }
}

// The lines of a text's forms, each with a line end.
fn lines_of(alloc: Global, text: &[u8]) -> Result<Vec<u8>, AllocError> {
    let mut lines = Vec::new(alloc);
    for stretch in &cut(alloc, text)? {
        if stretch.kind != StretchKind::LeftOut {
            let form = text.get(stretch.start..stretch.end).unwrap_or(&[]);
            let line = line_of(alloc, stretch.kind, form)?;
            put_line(&mut lines, line.as_slice())?;
        }
    }
    Ok(lines)
}

fn put_line(out: &mut Vec<u8>, line: &[u8]) -> Result<(), AllocError> {
    out.extend_from_slice(line)?;
    out.push(b'\n')?;
    Ok(())
}

// Tries all cases of a table.
fn try_cases(alloc: Global, table: &[u8]) -> Result<Vec<u8>, AllocError> {
    let mut out = Vec::new(alloc);
    let mut cases = Cases::new(alloc);
    for line in table.split(|byte| *byte == b'\n') {
        cases.read(alloc, line, &mut out)?;
    }
    cases.end_case(alloc, &mut out)?;
    let tried = cases.tried;
    let missed = cases.missed;
    let count = format!(in alloc; "{tried} cases, {missed} missed\n")?;
    out.extend_from_slice(count.as_bytes())?;
    Ok(out)
}

fn main(rt: HostRuntime) -> io::Result<()> {
    let alloc = rt.alloc();
    let text = io::read_to_string(alloc, rt.reader())?;
    let told = try_cases(alloc, text.as_bytes())?;
    let mut writer = io::writer(&rt);
    writer.write_all(told.as_slice())?;
    writer.flush()
}
