//! The texts of lines and their answers.
ghost use Rattle.std.specs.Prelude.{◌≡◌, ◌⊎◌, ◌++◌, ◌∷◌, [], List, ℕ, IfOk, codes, map};
ghost use Rattle.csv.specs.Writing.{default_writer, row_text};
ghost use Rattle.nesl_kept.specs.Rows.{IsShown, TellsLine, TellsRow};

use crate::again::{Teller, Unheard};
use crate::cells::{cells_of, cells_of_fault};
use crate::shown::shown;
use csv::WriterBuilder;
use nesl_session::answer::Answer;
use std::alloc::{AllocError, Global};

/// The names of the columns.
pub(crate) const HEAD: &[u8] = b"user,line,answer,value,type,work,depth,fault\n";

impl From<AllocError> for Unheard {
    fn from(_error: AllocError) -> Unheard {
        Unheard::Memory
    }
}

/// Tells nothing.
#[derive(Clone, Copy)]
pub(crate) struct Silent;

impl Teller for Silent {
    ghost tells = { λ _ _ _ text. text ≡ [] };

    fn tell(&self, alloc: Global, _line: &[u8], _answer: &Answer) -> Result<Vec<u8>, AllocError> {
        Ok(Vec::new(alloc))
    }
}

/// Tells each line, after a `>`, and its answer below it.
#[derive(Clone, Copy)]
pub(crate) struct LineTeller;

impl Teller for LineTeller {
    ghost tells = { λ _ line reply text. TellsLine line reply text };

    fn tell(&self, alloc: Global, line: &[u8], answer: &Answer) -> Result<Vec<u8>, AllocError> {
        let mut text = make_line(alloc, line)?;
        text.extend_from_slice(answer.bytes())?;
        Ok(text)
    }
}

fn make_line(alloc: Global, line: &[u8]) -> Result<Vec<u8>, AllocError>
    ensures { IfOk result
        (λ text. (shown : List ℕ) × IsShown line.now shown × (text.items ≡ codes "> " ++ shown ++ 10 ∷ [])) }
{
    let mut text = Vec::from_slice(alloc, b"> ")?;
    text.extend_from_slice(shown(alloc, line)?.as_slice())?;
    text.push(b'\n')?;
    Ok(text)
}

/// Tells a row of CSV for each line of a user.
#[derive(Clone, Copy)]
pub(crate) struct RowTeller<'a> {
    pub(crate) user: &'a str,
}

impl Teller for RowTeller<'_> {
    ghost tells = { λ teller line reply text. TellsRow teller.user.now line reply text };

    fn tell(&self, alloc: Global, line: &[u8], answer: &Answer) -> Result<Vec<u8>, AllocError> {
        make_row(alloc, self.user, line, answer)
    }
}

// Makes the row of a line of a user.
fn make_row(alloc: Global, user: &str, line: &[u8], answer: &Answer) -> Result<Vec<u8>, AllocError>
    ensures { IfOk result (λ row. TellsRow user.now line.now answer.now row.items) }
{
    let line = shown(alloc, line)?;
    let bytes = answer.bytes();
    let text = without_feed(bytes);
    let cells = match answer.fault() {
        Some(_) => cells_of_fault(text),
        None => cells_of(text),
    };
    format_row(
        alloc,
        &[
            user.as_bytes(),
            line.as_slice(),
            text,
            cells.value,
            cells.type_text,
            cells.work,
            cells.depth,
            cells.fault,
        ],
    )
}

// Returns an answer without its line end.
fn without_feed(answer: &[u8]) -> &[u8]
    ensures { (answer.now ≡ result.now) ⊎ (answer.now ≡ result.now ++ 10 ∷ []) }
{
    match answer.strip_suffix(b"\n".as_slice()) {
        Some(text) => text,
        None => answer,
    }
}

// Formats a row of CSV.
fn format_row(alloc: Global, fields: &[&[u8]]) -> Result<Vec<u8>, AllocError>
    ensures { IfOk result (λ row. row.items ≡ row_text default_writer (map (λ field. field.now) fields.now)) }
{
    let mut writer = WriterBuilder::new().from_writer(Vec::new(alloc));
    if writer.write_fields(fields).is_err() {
        return Err(AllocError);
    }
    match writer.into_inner() {
        Ok(row) => Ok(row),
        Err(_) => Err(AllocError),
    }
}
