//! A conversation at a prompt, from its greeting to its end.
ghost use Rattle.std.specs.Prelude.{◌≡◌, ◌≢◌, [], false, true, IfOk, OnErr};
ghost use Rattle.nesl_line.specs.declared.exchange.End.{End};
ghost use Rattle.nesl_prompt.specs.Conversation.{IsPrompt, Rests};
ghost use Rattle.nesl_prompt.specs.Points.{is_plain};
ghost use Rattle.nesl_prompt.specs.Text.{ConversesFirst, ConversesOver};

use crate::desk::Desk;
use crate::help::GREETING;
use crate::shelf::Shelf;
use crate::style::{PLAIN, Style};
use nesl_line::device::{Device, Sink, Source};
use nesl_line::exchange::{End, Ran, exchange};
use nesl_line::hearer::Hearer;
use nesl_line::tell::{say, tell};
use nesl_session::session::Session;
use std::alloc::{AllocError, Global};

/// Answers the lines that the reader has. The session answers each form, and the prompt itself obeys its own words,
/// such as `:help`. The conversation ends at the end of input, or at `:quit`.
pub fn converse<S: Source, W: Sink, F: Shelf>(
    alloc: Global,
    reader: &mut S,
    writer: &mut W,
    session: &mut Session,
    shelf: &F,
    style: Style,
) -> Ran
    ensures { IsPrompt (is_plain style) session.old session.new result.end result.lines (record {
      left = S.left reader.old;
      left_after = S.left reader.new;
      held = W.held writer.old;
      held_after = W.held writer.new;
    }) }
{
    if !say(writer, greeting(style)) {
        return Ran {
            lines: 0,
            end: End::WriteFault,
        };
    }
    let mut desk = Desk::new(alloc, shelf, style);
    let ran = exchange(alloc, reader, writer, &mut desk, session);
    if rest(alloc, writer, &mut desk, session, ran.end) {
        return ran;
    }
    Ran {
        lines: ran.lines,
        end: End::WriteFault,
    }
}

/// Answers the lines of a text as a plain prompt does, and returns what it writes. If memory runs out, what was written
/// is lost, and the session was given the first lines.
pub fn converse_over<F: Shelf>(
    alloc: Global,
    text: &[u8],
    session: &mut Session,
    shelf: &F,
) -> Result<Vec<u8>, AllocError>
    ensures answered { IfOk result (λ written. ConversesOver session.old text.now written.items session.new) }
    ensures refused { OnErr result (ConversesFirst session.old text.now session.new) }
{
    let mut reader = Device::new(text);
    let mut writer = Device::new(Vec::new(alloc));
    match converse(alloc, &mut reader, &mut writer, session, shelf, PLAIN).end {
        End::Input => Ok(writer.into_inner()),
        // No read of a text fails, and no text that fits in memory takes 2^32 reads.
        End::ReadFault | End::WriteFault | End::NoMemory => Err(AllocError),
    }
}

// Returns what is written before the first line.
fn greeting(style: Style) -> &'static [u8]
    ensures { is_plain style ≡ true → result.now ≡ [] }
{
    if style.prompts { GREETING } else { b"" }
}

// Returns what is written after the last line.
fn parting(style: Style, is_over: bool) -> &'static [u8]
    ensures { is_plain style ≡ true → result.now ≡ [] }
{
    if style.prompts && !is_over {
        b"\n"
    } else {
        b""
    }
}

// Ends a conversation. At the end of input the session answers a form that still goes on. Returns whether all could be
// written.
fn rest<W: Sink, F: Shelf>(
    alloc: Global,
    writer: &mut W,
    desk: &mut Desk<'_, F>,
    session: &mut Session,
    end: End,
) -> bool
    ensures { Rests (is_plain desk.old.style) end (record { form = desk.old.form.items; log = session.old })
        session.new (W.held writer.old) (W.held writer.new) result }
{
    let style = desk.style();
    if !say(writer, parting(style, desk.is_over())) {
        return false;
    }
    if !is_end_of_input(end) {
        return true;
    }
    if !desk.has_form() {
        return true;
    }
    let output = desk.answer_form(alloc, session, style.without_prompts());
    tell(writer, b"", &output)
}

fn is_end_of_input(end: End) -> bool
    ensures { result ≡ false → end ≢ End.Input }
{
    match end {
        End::Input => true,
        End::ReadFault | End::WriteFault | End::NoMemory => false,
    }
}
