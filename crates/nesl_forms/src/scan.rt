//! What is open in a form, and what a byte changes.
ghost use Rattle.std.specs.Prelude.{◌≡◌, OnOk, reverse};
ghost use Rattle.nesl_forms.specs.declared.scan.Change.TheVariants as changes;
ghost use Rattle.nesl_forms.specs.declared.scan.Edge.TheVariants as edges;
ghost use Rattle.nesl_forms.specs.declared.scan.Within.TheVariants as withins;
ghost use Rattle.nesl_forms.specs.Steps.{after_comment, between, changed, ends_name, goes};
ghost use Rattle.nesl_forms.specs.Steps.{closed, in_character, in_colon, in_command, in_comment, in_continued};
ghost use Rattle.nesl_forms.specs.Steps.{in_form, in_members, in_name, in_text};
ghost use Rattle.nesl_forms.specs.Steps.{spelled_after, spelled_first, step, takes_semicolon};

use crate::bytes::ByteKind;
use std::alloc::AllocError;

/// What a stretch of a text is.
#[derive(Clone, Copy, PartialEq, Eq, Debug)]
pub enum StretchKind {
    /// Blanks, line ends, comments and stray `;` between forms.
    LeftOut,
    /// A form with its `;`.
    Whole,
    /// A form that ends with its line: a command, or one in which a text or a character is not closed. So is the rest
    /// of the text where a comment is not closed.
    Line,
    /// The last form, without its `;`.
    Unfinished,
}

/// Something that is open inside a form.
#[derive(Clone, Copy, PartialEq, Eq)]
pub enum OpenMark {
    /// A parenthesis or a bracket, inside which no `;` may be.
    Bracket,
    /// A brace, or the parenthesis after `::`: a `;` separates its items.
    Items,
    /// A `let`, which `in` closes: a `;` separates its bindings.
    Let,
}

/// How much of `let` or `in` a name is so far.
#[derive(Clone, Copy)]
pub enum Spelled {
    L,
    Le,
    Let,
    I,
    In,
    Neither,
}

/// What a comment is in.
#[derive(Clone, Copy)]
pub enum Around {
    Between,
    Form,
    Members,
}

/// What a byte is within.
#[derive(Clone, Copy)]
pub enum Within {
    /// Between forms.
    Between,
    /// A form, and none of the following.
    Form,
    Name(Spelled),
    /// After `:`.
    Colon,
    /// After `::`.
    Members,
    /// A text in quotes.
    Text,
    /// After a backquote.
    Character,
    Comment(Around),
    /// A command of the prompt or of the session, which ends with its line.
    Command,
    /// A command, after a `\`: it goes on if only blanks follow in the line.
    Continued,
}

/// How a byte changes what is open.
#[derive(Clone, Copy)]
pub enum Change {
    Keeps,
    Opens(OpenMark),
    /// Closes the newest bracket or brace, and each `let` in it.
    Closes,
    /// Closes a `let`, if that is the newest.
    ClosesLet,
    Clears,
}

/// Whether a stretch ends at a byte.
#[derive(Clone, Copy)]
pub enum Edge {
    Inside,
    /// The stretch so far is of this kind, and the byte begins another.
    Before(StretchKind),
    /// The stretch with the byte is of this kind.
    After(StretchKind),
}

/// What a byte does.
#[derive(Clone, Copy)]
pub struct Effect {
    pub within: Within,
    pub change: Change,
    pub edge: Edge,
}

// A byte that changes nothing that is open, and ends nothing.
fn goes(within: Within) -> Effect
    ensures { result ≡ goes within }
{
    Effect {
        within,
        change: Change::Keeps,
        edge: Edge::Inside,
    }
}

// A byte of a form that opens something.
fn opens(opened: OpenMark) -> Effect
    ensures { result ≡ record { within = withins.Form; change = changes.Opens opened; edge = edges.Inside } }
{
    Effect {
        within: Within::Form,
        change: Change::Opens(opened),
        edge: Edge::Inside,
    }
}

// A byte that ends a form.
fn ends(edge: Edge) -> Effect
    ensures { result ≡ record { within = withins.Between; change = changes.Clears; edge = edge } }
{
    Effect {
        within: Within::Between,
        change: Change::Clears,
        edge,
    }
}

// A byte with which something begins.
fn begins(step: Effect) -> Effect
    ensures { result ≡ record step { edge = edges.Before StretchKind.LeftOut } }
{
    Effect {
        edge: Edge::Before(StretchKind::LeftOut),
        ..step
    }
}

// How much of `let` or `in` a name is by its first letter.
fn spelled_first(letter: u8) -> Spelled
    ensures { result ≡ spelled_first letter }
{
    match letter {
        b'l' => Spelled::L,
        b'i' => Spelled::I,
        _ => Spelled::Neither,
    }
}

// How much of `let` or `in` a name is with one more letter.
fn spelled_after(spelled: Spelled, letter: u8) -> Spelled
    ensures { result ≡ spelled_after spelled letter }
{
    match (spelled, letter) {
        (Spelled::L, b'e') => Spelled::Le,
        (Spelled::Le, b't') => Spelled::Let,
        (Spelled::I, b'n') => Spelled::In,
        _ => Spelled::Neither,
    }
}

// What a byte of a form does. `takes` is whether a `;` here is between two items or two bindings.
fn in_form(takes: bool, kind: ByteKind) -> Effect
    ensures { result ≡ in_form takes kind }
{
    match kind {
        ByteKind::Percent => goes(Within::Comment(Around::Form)),
        ByteKind::Quote => goes(Within::Text),
        ByteKind::Backquote => goes(Within::Character),
        ByteKind::OpenBracket => opens(OpenMark::Bracket),
        ByteKind::OpenBrace => opens(OpenMark::Items),
        ByteKind::Close => Effect {
            within: Within::Form,
            change: Change::Closes,
            edge: Edge::Inside,
        },
        ByteKind::Semicolon => {
            if takes {
                goes(Within::Form)
            } else {
                ends(Edge::After(StretchKind::Whole))
            }
        }
        ByteKind::Colon => goes(Within::Colon),
        ByteKind::Letter(letter) => goes(Within::Name(spelled_first(letter))),
        _ => goes(Within::Form),
    }
}

// What a byte between forms does.
fn between(kind: ByteKind) -> Effect
    ensures { result ≡ between kind }
{
    match kind {
        ByteKind::LineEnd | ByteKind::Blank | ByteKind::Semicolon => goes(Within::Between),
        ByteKind::Percent => begins(goes(Within::Comment(Around::Between))),
        ByteKind::Colon => begins(goes(Within::Command)),
        _ => begins(in_form(false, kind)),
    }
}

// What a byte after `::` does.
fn in_members(takes: bool, kind: ByteKind) -> Effect
    ensures { result ≡ in_members takes kind }
{
    match kind {
        ByteKind::LineEnd | ByteKind::Blank => goes(Within::Members),
        ByteKind::Percent => goes(Within::Comment(Around::Members)),
        ByteKind::OpenBracket => opens(OpenMark::Items),
        _ => in_form(takes, kind),
    }
}

// What a byte of a text does.
fn in_text(kind: ByteKind) -> Effect
    ensures { result ≡ in_text kind }
{
    match kind {
        ByteKind::LineEnd => ends(Edge::Before(StretchKind::Line)),
        ByteKind::Quote => goes(Within::Form),
        _ => goes(Within::Text),
    }
}

// What a byte of a command does.
fn in_command(kind: ByteKind) -> Effect
    ensures { result ≡ in_command kind }
{
    match kind {
        ByteKind::LineEnd => ends(Edge::Before(StretchKind::Line)),
        ByteKind::Backslash => goes(Within::Continued),
        _ => goes(Within::Command),
    }
}

// What a byte after a `\` of a command does.
fn in_continued(kind: ByteKind) -> Effect
    ensures { result ≡ in_continued kind }
{
    match kind {
        ByteKind::Blank | ByteKind::Backslash => goes(Within::Continued),
        _ => goes(Within::Command),
    }
}

fn after_comment(around: Around) -> Within
    ensures { result ≡ after_comment around }
{
    match around {
        Around::Between => Within::Between,
        Around::Form => Within::Form,
        Around::Members => Within::Members,
    }
}

// What a byte after the front of a name does.
fn in_name(spelled: Spelled, takes: bool, kind: ByteKind) -> Effect
    ensures { result ≡ in_name spelled takes kind }
{
    match kind {
        ByteKind::Letter(letter) => goes(Within::Name(spelled_after(spelled, letter))),
        ByteKind::Digit => goes(Within::Name(Spelled::Neither)),
        _ => in_form(takes, kind),
    }
}

// What a byte after `:` does.
fn in_colon(takes: bool, kind: ByteKind) -> Effect
    ensures { result ≡ in_colon takes kind }
{
    match kind {
        ByteKind::Colon => goes(Within::Members),
        _ => in_form(takes, kind),
    }
}

// What a byte after a backquote does.
fn in_character(kind: ByteKind) -> Effect
    ensures { result ≡ in_character kind }
{
    match kind {
        ByteKind::LineEnd => ends(Edge::Before(StretchKind::Line)),
        _ => goes(Within::Form),
    }
}

// What a byte of a comment does.
fn in_comment(around: Around, kind: ByteKind) -> Effect
    ensures { result ≡ in_comment around kind }
{
    match kind {
        ByteKind::Percent => goes(after_comment(around)),
        _ => goes(Within::Comment(around)),
    }
}

/// What a byte does, by what it is within. `takes` is whether a `;` here is between two items or two bindings.
pub fn step_at(within: Within, takes: bool, kind: ByteKind) -> Effect
    ensures { result ≡ step within takes kind }
{
    match within {
        Within::Between => between(kind),
        Within::Form => in_form(takes, kind),
        Within::Name(spelled) => in_name(spelled, takes, kind),
        Within::Colon => in_colon(takes, kind),
        Within::Members => in_members(takes, kind),
        Within::Text => in_text(kind),
        Within::Character => in_character(kind),
        Within::Comment(around) => in_comment(around, kind),
        Within::Command => in_command(kind),
        Within::Continued => in_continued(kind),
    }
}

/// How a byte changes what is open by ending the name before it: `let` opens, and `in` closes.
pub fn ends_name(within: Within, kind: ByteKind) -> Change
    ensures { result ≡ ends_name within kind }
{
    match (within, kind) {
        (Within::Name(_), ByteKind::Letter(_) | ByteKind::Digit) => Change::Keeps,
        (Within::Name(Spelled::Let), _) => Change::Opens(OpenMark::Let),
        (Within::Name(Spelled::In), _) => Change::ClosesLet,
        _ => Change::Keeps,
    }
}

/// Changes what is open.
pub fn make_change(opened: &mut Vec<OpenMark>, change: Change) -> Result<(), AllocError>
    ensures { OnOk result (reverse opened.new.items ≡ changed change (reverse opened.old.items)) }
{
    match change {
        Change::Keeps => {}
        Change::Opens(mark) => opened.push(mark)?,
        Change::Closes => close(opened),
        Change::ClosesLet => close_let(opened),
        Change::Clears => opened.clear(),
    }
    Ok(())
}

// Closes the newest bracket or brace, and each `let` in it.
fn close(opened: &mut Vec<OpenMark>)
    ensures { reverse opened.new.items ≡ closed (reverse opened.old.items) }
{
    while let Some(mark) = opened.pop() {
        if mark != OpenMark::Let {
            return;
        }
    }
}

// Closes a `let`, if that is the newest.
fn close_let(opened: &mut Vec<OpenMark>)
    ensures { reverse opened.new.items ≡ changed changes.ClosesLet (reverse opened.old.items) }
{
    if opened.last() == Some(&OpenMark::Let) {
        let _ = opened.pop();
    }
}

/// Whether a `;` here is between two items or two bindings.
pub fn takes_semicolon(opened: &[OpenMark]) -> bool
    ensures { result ≡ takes_semicolon (reverse opened.now) }
{
    match opened.last() {
        Some(OpenMark::Items | OpenMark::Let) => true,
        Some(OpenMark::Bracket) | None => false,
    }
}
