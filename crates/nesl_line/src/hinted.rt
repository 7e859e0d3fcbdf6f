//! Hints below answers, and a batch with them.
ghost use Rattle.std.specs.Prelude.{◌≡◌, ◌∷◌, ◌++◌, [], List, ℕ, IfOk, OnOk, false, map};
ghost use Rattle.std.specs.Vec.{vec_capacity};
ghost use Rattle.nesl_line.specs.Exchange.{ReadsTallied, WritesTallied};
ghost use Rattle.nesl_line.specs.Hinted.{HasHint, IsHintLine, IsHintedBatch, plain_front, shown};
ghost use Rattle.nesl_line.specs.Steps.{HintedTo, NamesFit, chosen};
ghost use Rattle.nesl_line.specs.Told.{text_told};

use crate::batch::longest_name;
use crate::device::{Sink, Source};
use crate::exchange::{End, Ran, exchange};
use crate::hearer::{Hearer, Told};
use crate::turn::Chooser;
use nesl_house::house::House;
use nesl_house::manner::Manner;
use nesl_session::answer::Answer;
use nesl_session::session::Session;
use std::alloc::{AllocError, Global};

/// What the lines of hints of a batch begin with.
const PLAIN_FRONT: &[u8] = b"hint: ";

/// A source of hints.
pub trait Hinter {
    /// A hint on a form that this session has just answered with a fault, or `None`. It is what follows the front of a
    /// line of hints, without the line end.
    fn hint(
        &self,
        alloc: Global,
        session: &Session,
        form: &[u8],
        answer: &Answer,
    ) -> Option<Vec<u8>>;
}

// Says lines to the sessions of a house, and puts a hint below an answer that is a fault.
#[derive(Drop)]
struct Hinting<'m, M, H> {
    chooser: Chooser<'m, M>,
    hinter: &'m H,
}

impl<M: Manner, H: Hinter> Hearer for Hinting<'_, M, H> {
    type World = House;

    ghost heard = { λ first start now house lines texts.
        HintedTo start lines texts (chosen now.chooser.who.items) house };

    ghost over = { λ hinting. false };

    ghost ready = { λ hinting house. NamesFit (vec_capacity hinting.chooser.who) house };

    fn hear(&mut self, alloc: Global, world: &mut House, line: &[u8]) -> Told {
        let before = pending_copy(alloc, self.chooser.session(world));
        let told = self.chooser.hear(alloc, world, line);
        let session = self.chooser.session(world);
        let hint = hint_on(alloc, self.hinter, session, before, line, &told);
        with_hint(alloc, PLAIN_FRONT, hint, told)
    }

    fn is_over(&self) -> bool {
        false
    }
}

// A copy of the joined parts of a form that isn't complete yet.
pub fn pending_copy(alloc: Global, session: Option<&Session>) -> Result<Vec<u8>, AllocError> {
    match session {
        Some(session) => Vec::from_slice(alloc, session.pending()),
        None => Ok(Vec::new(alloc)),
    }
}

// The hint on a line that was answered with a fault. `before` has the parts of its form before it.
pub fn hint_on<H: Hinter>(
    alloc: Global,
    hinter: &H,
    session: Option<&Session>,
    before: Result<Vec<u8>, AllocError>,
    line: &[u8],
    told: &Told,
) -> Option<Vec<u8>> {
    let Told::By(answer) = told else {
        return None;
    };
    let _ = answer.fault()?;
    let mut form = match before {
        Ok(form) => form,
        Err(_) => return None,
    };
    if form.extend_from_slice(line).is_err() {
        return None;
    }
    hinter.hint(alloc, session?, form.as_slice(), answer)
}

// The reply to a line, with a hint below it if there is one. Its line begins with `front`.
pub fn with_hint(alloc: Global, front: &[u8], hint: Option<Vec<u8>>, told: Told) -> Told
    ensures { (line : List ℕ) → HasHint front.now (text_told line told) (text_told line result) }
{
    let Some(hint) = hint else {
        return told;
    };
    match told {
        Told::By(answer) => match line_of(alloc, front, hint.as_slice()) {
            Ok(more) => Told::With(answer, more),
            Err(_) => Told::By(answer),
        },
        told => told,
    }
}

// The line of a hint.
fn line_of(alloc: Global, front: &[u8], hint: &[u8]) -> Result<Vec<u8>, AllocError>
    ensures { IfOk result (λ more. IsHintLine front.now more.items) }
{
    let mut more = Vec::from_slice(alloc, front)?;
    match put_line(&mut more, hint) {
        Ok(()) => Ok(more),
        Err(error) => Err(error),
    }
}

// Appends a hint to a text, and ends the line.
fn put_line(text: &mut Vec<u8>, hint: &[u8]) -> Result<(), AllocError>
    ensures { OnOk result (text.new.items ≡ text.old.items ++ map shown hint.now ++ 10 ∷ []) }
{
    put_shown(text, hint)?;
    text.push(b'\n')?;
    Ok(())
}

// Appends bytes to a text, with a blank in place of each below 32.
fn put_shown(text: &mut Vec<u8>, bytes: &[u8]) -> Result<(), AllocError>
    ensures { OnOk result (text.new.items ≡ text.old.items ++ map shown bytes.now) }
{
    for byte in bytes {
        text.push(shown(*byte))?;
    }
    Ok(())
}

fn shown(byte: u8) -> u8
    ensures { result ≡ shown byte }
{
    if byte < 32 { b' ' } else { byte }
}

/// Answers the lines of a reader as `batch_by` does, with a hint below each fault that has one.
pub fn batch_with_hints<S: Source, W: Sink, M: Manner, H: Hinter>(
    alloc: Global,
    reader: &mut S,
    writer: &mut W,
    house: &mut House,
    manner: &M,
    hinter: &H,
) -> Ran
    ensures batch { IsHintedBatch house.old house.new result.end result.lines (record {
      left = S.left reader.old;
      left_after = S.left reader.new;
      held = W.held writer.old;
      held_after = W.held writer.new;
    }) }
    ensures reads { ReadsTallied result.end (S.tally reader.old) (S.tally reader.new) }
    ensures writes { WritesTallied result.end result.lines (W.tally writer.old) (W.tally writer.new) }
{
    let room = longest_name(house.users());
    let Ok(chooser) = Chooser::new(alloc, manner, room) else {
        return Ran {
            lines: 0,
            end: End::NoMemory,
        };
    };
    let mut hinting = Hinting { chooser, hinter };
    exchange(alloc, reader, writer, &mut hinting, house)
}
