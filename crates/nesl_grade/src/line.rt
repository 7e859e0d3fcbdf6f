//! The lines of tests.
ghost use Rattle.std.specs.Prelude.{◌≡◌, ◌++◌, IfOk, OnOk, decimal, string_bytes};
ghost use Rattle.nesl_lex.specs.Lexemes.{is_capital, is_letter, is_name_byte};
ghost use Rattle.nesl_grade.specs.declared.line.Spot.TheVariants as spots;
ghost use Rattle.nesl_grade.specs.Lines.{after, after_plain, goes_on, is_n, line_at, line_of, with_number};

use std::alloc::{AllocError, Global};

/// Where a byte of an expression is.
#[derive(Clone, Copy, PartialEq, Eq)]
pub enum Spot {
    Plain,
    /// After a byte of a name.
    Name,
    Text,
    /// After a backquote.
    Character,
}

fn is_letter(byte: u8) -> bool
    ensures { result ≡ is_letter byte }
{
    (byte >= b'A' && byte <= b'Z') || (byte >= b'a' && byte <= b'z')
}

fn is_name_byte(byte: u8) -> bool
    ensures { result ≡ is_name_byte byte }
{
    is_letter(byte) || (byte >= b'0' && byte <= b'9') || byte == b'_'
}

fn after_plain(byte: u8) -> Spot
    ensures { result ≡ after_plain byte }
{
    if is_letter(byte) {
        return Spot::Name;
    }
    match byte {
        b'"' => Spot::Text,
        b'`' => Spot::Character,
        _ => Spot::Plain,
    }
}

// Where the next byte is.
fn after(spot: Spot, byte: u8) -> Spot
    ensures { result ≡ after spot byte }
{
    match spot {
        Spot::Plain => after_plain(byte),
        Spot::Name => {
            if is_name_byte(byte) {
                Spot::Name
            } else {
                after_plain(byte)
            }
        }
        Spot::Text => {
            if byte == b'"' {
                Spot::Plain
            } else {
                Spot::Text
            }
        }
        Spot::Character => Spot::Plain,
    }
}

// Whether a name goes on with the next byte.
fn goes_on(rest: &[u8]) -> bool
    ensures { result ≡ goes_on rest.now }
{
    match rest.first() {
        Some(byte) => is_name_byte(*byte),
        None => false,
    }
}

// Whether a byte here is the whole name `n`.
fn is_n(spot: Spot, byte: u8, rest: &[u8]) -> bool
    ensures { result ≡ is_n spot byte rest.now }
{
    match spot {
        Spot::Plain => (byte == b'n' || byte == b'N') && !goes_on(rest),
        Spot::Name | Spot::Text | Spot::Character => false,
    }
}

// Appends an expression, with digits in place of the name `n`.
fn put_with_number(out: &mut Vec<u8>, digits: &[u8], exp: &[u8]) -> Result<(), AllocError>
    ensures { OnOk result (out.new.items ≡ out.old.items ++ with_number spots.Plain digits.now exp.now) }
{
    let mut spot = Spot::Plain;
    let mut rest = exp;
    while let Some((byte, more)) = rest.split_first() {
        if is_n(spot, *byte, more) {
            out.extend_from_slice(digits)?;
            spot = Spot::Plain;
        } else {
            out.push(*byte)?;
            spot = after(spot, *byte);
        }
        rest = more;
    }
    Ok(())
}

/// Returns the line of a test at a number: its expression with the number in place of `n`, and a `;`.
pub fn line_at(alloc: Global, exp: &[u8], n: u64) -> Result<Vec<u8>, AllocError>
    ensures { IfOk result (λ line. line.items ≡ line_at exp.now n) }
{
    let digits = n.to_string(alloc)?;
    let mut line = Vec::new(alloc);
    put_with_number(&mut line, digits.as_bytes(), exp)?;
    line.push(b';')?;
    Ok(line)
}

/// Returns the line of a test: its expression and a `;`.
pub fn line_of(alloc: Global, exp: &[u8]) -> Result<Vec<u8>, AllocError>
    ensures { IfOk result (λ line. line.items ≡ line_of exp.now) }
{
    let mut line = Vec::from_slice(alloc, exp)?;
    line.push(b';')?;
    Ok(line)
}
