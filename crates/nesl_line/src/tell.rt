//! One line, heard and replied to.
ghost use Rattle.std.specs.Prelude.{◌≡◌, ℕ, ◌+◌, ◌++◌, false, length};
ghost use Rattle.nesl_line.specs.Told.{text_told};
ghost use Rattle.nesl_line.specs.Steps.{Answered, Sent, Wrote, Flushed};

use crate::device::Sink;
use crate::hearer::{Hearer, Told};
use std::alloc::Global;

// Hears one line, and sends the reply. The result is false if something failed.
pub fn answer<H: Hearer, W: Sink>(
    alloc: Global,
    writer: &mut W,
    hearer: &mut H,
    world: &mut H::World,
    line: &[u8],
) -> bool
    requires { H.ready hearer.old world.old }
    ensures answered { (first : H) (start : H.World) → Answered (H.heard first start hearer.old world.old)
        (H.heard first start hearer.new world.new) line.now (W.held writer.old) (W.held writer.new) result }
    ensures tally { Flushed result 1 (W.tally writer.old) (W.tally writer.new) }
    ensures ready { H.over hearer.new ≡ false → H.ready hearer.new world.new }
{
    let told = hearer.hear(alloc, world, line);
    tell(writer, line, &told)
}

/// Sends the reply to a line, and flushes. The result is false if something failed.
pub fn tell<W: Sink>(writer: &mut W, line: &[u8], told: &Told) -> bool
    ensures sent { Sent (W.held writer.old) (W.held writer.new) (text_told line.now told.now) result }
    ensures tally { Flushed result 1 (W.tally writer.old) (W.tally writer.new) }
{
    match told {
        Told::Back => say_both(writer, line, b"\n"),
        Told::By(answer) => say(writer, answer.bytes()),
        Told::Text(text) => say(writer, text.as_slice()),
        Told::With(answer, more) => say_both(writer, answer.bytes(), more.as_slice()),
    }
}

// Sends both texts, and flushes.
fn say_both<W: Sink>(writer: &mut W, first: &[u8], second: &[u8]) -> bool
    ensures sent { Sent (W.held writer.old) (W.held writer.new) (first.now ++ second.now) result }
    ensures tally { Flushed result 1 (W.tally writer.old) (W.tally writer.new) }
{
    if !send(writer, first) {
        return false;
    }
    say(writer, second)
}

/// Sends the bytes, and flushes. The result is false if something failed.
pub fn say<W: Sink>(writer: &mut W, bytes: &[u8]) -> bool
    ensures sent { Sent (W.held writer.old) (W.held writer.new) bytes.now result }
    ensures tally { Flushed result 1 (W.tally writer.old) (W.tally writer.new) }
{
    if !send(writer, bytes) {
        return false;
    }
    writer.flush().is_ok()
}

// Writes all of the bytes. The result is false if a write failed or took no byte.
fn send<W: Sink>(writer: &mut W, bytes: &[u8]) -> bool
    ensures sent { Sent (W.held writer.old) (W.held writer.new) bytes.now result }
    ensures tally { Wrote result (length bytes.now) (W.tally writer.old) (W.tally writer.new) }
{
    let mut at = 0;
    while at < bytes.len() {
        match writer.write(&bytes[at..]) {
            Err(_) => return false,
            Ok(0) => return false,
            Ok(n) => at += n,
        }
    }
    true
}
