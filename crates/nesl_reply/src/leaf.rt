//! The texts of numbers, truth values and characters.

ghost use Rattle.std.specs.Prelude.{◌≡◌, ◌++◌, codes, if◌then◌else◌, OnOk, map};
ghost use Rattle.nesl_values.specs.Tree.{ValueTree, int, boolean, character};
ghost use Rattle.nesl_lex.specs.Lexemes.{is_printable};
ghost use Rattle.nesl_reply.specs.Values.{character_text};
ghost use Rattle.nesl_reply.specs.Tasks.{leaf_text, other_leaves};

use crate::writing::{write_bytes, write_integer, write_number};
use std::alloc::AllocError;

/// A value without parts, as packed sequences hold it: an integer, a truth value or a character.
pub(crate) trait Leaf: Copy {
    ghost leaf: { Self → ValueTree };

    fn write(self, out: &mut Vec<u8>) -> Result<(), AllocError>
        ensures { OnOk result (out.new.items ≡ out.old.items ++ leaf_text (leaf self)) };
}

impl Leaf for i64 {
    ghost leaf = { int };

    fn write(self, out: &mut Vec<u8>) -> Result<(), AllocError> {
        write_integer(out, self)
    }
}

impl Leaf for bool {
    ghost leaf = { boolean };

    fn write(self, out: &mut Vec<u8>) -> Result<(), AllocError> {
        write_truth(out, self)
    }
}

impl Leaf for u8 {
    ghost leaf = { character };

    fn write(self, out: &mut Vec<u8>) -> Result<(), AllocError> {
        write_character(out, self)
    }
}

// Writes `T` or `F`.
pub(crate) fn write_truth(out: &mut Vec<u8>, b: bool) -> Result<(), AllocError>
    ensures { OnOk result (out.new.items ≡ out.old.items ++ (if b then codes "T" else codes "F")) }
{
    out.push(if b { b'T' } else { b'F' })?;
    Ok(())
}

// Whether the byte is printable ASCII, 32 to 126.
pub(crate) fn is_printable(c: u8) -> bool
    ensures { result ≡ is_printable c }
{
    32 <= c && c <= 126
}

// Writes a character as a backquote and its byte, or as `code_char(N)` if the byte isn't printable.
pub(crate) fn write_character(out: &mut Vec<u8>, c: u8) -> Result<(), AllocError>
    ensures { OnOk result (out.new.items ≡ out.old.items ++ character_text c) }
{
    if is_printable(c) {
        return write_bytes(out, &[b'`', c]);
    }
    write_bytes(out, b"code_char(")?;
    write_number(out, u64::from(c))?;
    write_bytes(out, b")")
}

// Writes leaves with a comma before each.
pub(crate) fn write_other_leaves<L: Leaf>(out: &mut Vec<u8>, items: &[L]) -> Result<(), AllocError>
    ensures { OnOk result (out.new.items ≡ out.old.items ++ other_leaves (map L.leaf items.now)) }
{
    for item in items {
        write_bytes(out, b", ")?;
        item.write(out)?;
    }
    Ok(())
}
