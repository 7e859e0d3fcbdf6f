//! Bytes and numbers that are written at the end of a text.

ghost use Rattle.std.specs.Prelude.{◌≡◌, ◌<◌, ◌++◌, OnOk, decimal};
ghost use Rattle.std.specs.Fmt.{signed_decimal};

use itoa::Buffer;
use std::alloc::AllocError;

#[inline]
pub(crate) fn write_bytes(out: &mut Vec<u8>, bytes: &[u8]) -> Result<(), AllocError>
    ensures { OnOk result (out.new.items ≡ out.old.items ++ bytes.now) }
{
    out.extend_from_slice(bytes)
}

// Writes a digit.
#[inline]
fn write_digit(out: &mut Vec<u8>, digit: u64) -> Result<(), AllocError>
    requires { digit < 10 }
    ensures { OnOk result (out.new.items ≡ out.old.items ++ decimal digit) }
{
    out.push(b'0' + digit as u8)?;
    Ok(())
}

pub(crate) fn write_number(out: &mut Vec<u8>, number: u64) -> Result<(), AllocError>
    ensures { OnOk result (out.new.items ≡ out.old.items ++ decimal number) }
{
    if number < 10 {
        return write_digit(out, number);
    }
    if number < 100 {
        write_digit(out, number / 10)?;
        write_digit(out, number % 10)?;
        return Ok(());
    }
    let mut buffer = Buffer::new();
    out.extend_from_slice(buffer.format(number).as_bytes())
}

pub(crate) fn write_integer(out: &mut Vec<u8>, integer: i64) -> Result<(), AllocError>
    ensures { OnOk result (out.new.items ≡ out.old.items ++ signed_decimal integer) }
{
    if let Ok(number) = u64::try_from(integer) {
        return write_number(out, number);
    }
    let mut buffer = Buffer::new();
    out.extend_from_slice(buffer.format(integer).as_bytes())
}
