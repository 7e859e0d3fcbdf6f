//! The state of a prompt, and its answers to lines.
ghost use Rattle.std.specs.Prelude.{◌≡◌, ◌≢◌, ℕ, ◌<◌, ◌≤◌, ◌++◌, List, Option, [], None, false, true, ⊤};
ghost use Rattle.std.specs.Prelude.{codes, length};
ghost use Rattle.std.specs.Prelude.{IfSome, OnOk, OnErr, if◌then◌else◌};
ghost use Rattle.nesl_reply.specs.declared.fault.Fault.{Fault};
ghost use Rattle.nesl_session_meaning.specs.Solo.{Responds};
ghost use Rattle.nesl_session_meaning.specs.Response.{Reply};
ghost use Rattle.nesl_line.specs.Told.{text_told};
ghost use Rattle.nesl_prompt.specs.Conversation.{Conversed, EndsWithQuit, IsBelow, IsSign, IsReplyText};
ghost use Rattle.nesl_prompt.specs.Conversation.{IsWritten, TakesLine, Turn};
ghost use Rattle.nesl_prompt.specs.Points.{Obeyed, WasGiven, is_plain, joined};
ghost use Rattle.nesl_prompt.specs.Words.{IsBlank, is_part, is_quit, word_gives_lines};

use crate::caret::put_hint;
use crate::cut::{cut_reply, is_cut};
use crate::functions::put_types;
use crate::help::{GOES_ON, lower, put_help};
use crate::hints::hint_on;
use crate::kept::Kept;
use crate::open::Open;
use crate::shelf::{Shelf, ShelfFault};
use crate::style::Style;
use crate::typed::Typed;
use crate::word::{Word, is_blank, is_part, is_quit, word_in};
use memchr::memchr;
use nesl_cost_session::account_lines;
use nesl_line::hearer::{Hearer, Told};
use nesl_session::LONGEST;
use nesl_session::answer::Answer;
use nesl_session::session::Session;
use std::alloc::{AllocError, Global};
use std::mem;

/// The state of a prompt besides its session.
#[derive(Drop)]
pub struct Desk<'x, F> {
    shelf: &'x F,
    style: Style,
    /// The lines so far of an unfinished form, joined by blanks.
    form: Vec<u8>,
    /// The places of these blanks.
    joints: Vec<usize>,
    open: Open,
    /// Whether the last line of the form was blank.
    is_paused: bool,
    kept: Kept,
    /// The last reply that was cut.
    long: Option<Answer>,
    is_over: bool,
    /// Whether the note on forms that go on was written.
    is_noted: bool,
}

impl<'x, F: Shelf> Desk<'x, F> {
    /// A prompt that has not read a line.
    pub fn new(alloc: Global, shelf: &'x F, style: Style) -> Desk<'x, F>
        ensures form { result.form.items ≡ [] }
        ensures style { result.style ≡ style }
        ensures open { result.is_over ≡ false }
    {
        Desk {
            shelf,
            style,
            form: Vec::new(alloc),
            joints: Vec::new(alloc),
            open: Open::new(alloc),
            is_paused: false,
            kept: Kept::new(alloc),
            long: None,
            is_over: false,
            is_noted: false,
        }
    }

    pub fn style(&self) -> Style
        ensures { result ≡ self.now.style }
    {
        self.style
    }

    /// Whether a form is unfinished.
    pub fn has_form(&self) -> bool
        ensures some { result ≡ true → self.now.form.items ≢ [] }
        ensures none { result ≡ false → self.now.form.items ≡ [] }
    {
        !self.form.is_empty()
    }

    /// Passes the unfinished form to the session, and returns the reply with the text below it.
    pub fn answer_form(&mut self, alloc: Global, session: &mut Session, style: Style) -> Told
        ensures said { (reply : Reply) × Responds session.old self.old.form.items reply session.new
            × ((line : List ℕ) → IsReplyText (is_plain style) reply (text_told line result)) }
        ensures form { self.new.form.items ≡ [] }
        ensures style { self.new.style ≡ self.old.style }
    {
        self.open.clear();
        self.is_paused = false;
        let form = mem::replace(&mut self.form, Vec::new(alloc));
        let joints = mem::replace(&mut self.joints, Vec::new(alloc));
        let before = Vec::from_slice(alloc, session.pending());
        let answer = session.line(alloc, form.as_slice());
        let typed = whole(before, Typed { form, joints });
        let more = self.below(alloc, session, style, typed, &answer);
        self.told_of(alloc, style, answer, more)
    }

    // Returns a reply with the text below it. Where there are prompts, a long reply is cut, and kept for `:more`.
    fn told_of(&mut self, alloc: Global, style: Style, answer: Answer, more: Vec<u8>) -> Told
        ensures told { (line : List ℕ) → IsWritten (is_plain style) answer.bytes more.items (text_told line result) }
        ensures form { self.new.form ≡ self.old.form }
        ensures style { self.new.style ≡ self.old.style }
    {
        if !is_cut(style, answer.bytes()) {
            return Told::With(answer, more);
        }
        match cut_reply(alloc, answer.bytes(), more.as_slice()) {
            Ok(text) => {
                self.long = Some(answer);
                Told::Text(text)
            }
            Err(_) => Told::With(answer, more),
        }
    }

    // Returns the text below the reply to a form: a hint and a prompt, as far as the style has them. It keeps the form
    // if `:save` writes it. `typed` is an error where there was no memory for it.
    fn below(
        &mut self,
        alloc: Global,
        session: &Session,
        style: Style,
        typed: Result<Typed, AllocError>,
        answer: &Answer,
    ) -> Vec<u8>
        ensures below { IsBelow (is_plain style) answer.now.fault result.items }
        ensures form { self.new.form ≡ self.old.form }
        ensures style { self.new.style ≡ self.old.style }
    {
        let hint = hint_below(alloc, session, style, &typed, answer);
        if let Ok(typed) = typed {
            let _ = self.kept.note(alloc, typed, answer).is_ok();
        }
        with_prompt(style, !session.pending().is_empty(), hint)
    }

    // Adds a line to the form. If the form ends with it, the session answers the form.
    fn take(&mut self, alloc: Global, session: &mut Session, line: &[u8], style: Style) -> Told
        ensures takes { (any : List ℕ) → TakesLine (is_plain style)
            (record { form = self.old.form.items; log = session.old }) line.now (text_told any result)
            (record { form = self.new.form.items; log = session.new }) }
        ensures style { self.new.style ≡ self.old.style }
    {
        let is_begun = !self.form.is_empty();
        match self.gather(line) {
            Err(_) => {
                let more = prompt(alloc, style, is_begun);
                Told::With(Answer::no_memory(), more)
            }
            Ok(()) => {
                if self.is_whole(alloc, line, is_begun, style) {
                    return self.answer_form(alloc, session, style);
                }
                Told::Text(self.go_on(alloc, style))
            }
        }
    }

    // Adds a line to the form, after a blank unless it is the first.
    #[tactic(auto, using(crate::proofs::Conversations::joined_first, crate::proofs::Conversations::joined_more))]
    fn gather(&mut self, line: &[u8]) -> Result<(), AllocError>
        ensures ok { OnOk result (self.new.form.items ≡ joined self.old.form.items line.now) }
        ensures err { OnErr result (self.new.form.items ≡ self.old.form.items) }
        ensures style { self.new.style ≡ self.old.style }
    {
        if self.form.is_empty() {
            self.form.extend_from_slice(line)?;
            return Ok(());
        }
        self.form.reserve(line.len() + 1)?;
        self.joints.push(self.form.len())?;
        self.form.push_reserved(b' ');
        if self.form.extend_from_slice(line).is_err() {
            unreachable!();
        }
        Ok(())
    }

    // Whether the form ends with this line. Where there are prompts, two blank lines end it. It also ends where it is
    // longer than a session accepts, or where memory runs out.
    fn is_whole(&mut self, alloc: Global, line: &[u8], is_begun: bool, style: Style) -> bool
        ensures short { result ≡ false → length self.old.form.items ≤ LONGEST }
        ensures blank { result ≡ true → style.prompts ≡ false → is_begun ≡ true → is_part line.now ≡ false
            → IsBlank line.now → LONGEST < length self.old.form.items }
        ensures part { result ≡ false → is_part line.now ≡ false }
        ensures form { self.new.form ≡ self.old.form }
        ensures style { self.new.style ≡ self.old.style }
    {
        if self.form.len() > LONGEST || is_part(line) {
            return true;
        }
        if is_begun && is_blank(line) {
            let was_paused = mem::replace(&mut self.is_paused, true);
            return was_paused && style.prompts;
        }
        self.is_paused = false;
        self.open.ends_with(alloc, line).unwrap_or(true)
    }

    // Returns the text after a line with which a form does not end.
    fn go_on(&mut self, alloc: Global, style: Style) -> Vec<u8>
        ensures plain { is_plain style ≡ true → result.items ≡ [] }
        ensures form { self.new.form ≡ self.old.form }
        ensures style { self.new.style ≡ self.old.style }
    {
        let is_first = !self.is_noted;
        self.is_noted = true;
        with_prompt(style, true, note_on_forms(alloc, style, is_first))
    }

    // Obeys a word of the prompt.
    #[tactic(auto, using(crate::proofs::Conversations::obeyed_none, crate::proofs::Conversations::obeyed_some))]
    fn obey(
        &mut self,
        alloc: Global,
        session: &mut Session,
        word: Word<'_>,
        out: &mut Vec<u8>,
    ) -> Result<(), AllocError>
        requires form { self.old.form.items ≡ [] }
        ensures said { Obeyed (word_gives_lines word.entry) session.old session.new }
        ensures form { self.new.form.items ≡ [] }
        ensures style { self.new.style ≡ self.old.style }
    {
        match word {
            Word::Help(name) => put_help(alloc, out, session, &self.kept, name),
            Word::More => put_long(out, self.long.as_ref()),
            Word::Cost(exp) => put_account(alloc, out, session, exp),
            Word::Kept => self.kept.put(out),
            Word::Save(path) => self.save(alloc, path, out),
            Word::Quit => Ok(()),
            Word::Load(path) => self.load(alloc, session, path, out),
            Word::TypeOf(name) => self.put_type_of(alloc, session, name, out),
        }
    }

    // Writes the kept forms into a file.
    fn save(&self, alloc: Global, path: &[u8], out: &mut Vec<u8>) -> Result<(), AllocError> {
        let mut text = Vec::new(alloc);
        self.kept.put(&mut text)?;
        let saved = match path_of(path) {
            Some(path) => self.shelf.write(alloc, path, text.as_slice()),
            None => Err(ShelfFault::Absent),
        };
        match saved {
            Ok(()) => put_count(alloc, out, self.kept.count_forms()),
            Err(fault) => put_fault(alloc, out, "save", path, fault),
        }
    }

    // Writes the type of a function. For anything else it asks the session for the type of an expression.
    #[tactic(auto, using(crate::proofs::Conversations::given_none))]
    fn put_type_of(
        &mut self,
        alloc: Global,
        session: &mut Session,
        name: &[u8],
        out: &mut Vec<u8>,
    ) -> Result<(), AllocError>
        requires form { self.old.form.items ≡ [] }
        ensures said { WasGiven session.old session.new }
        ensures form { self.new.form.items ≡ [] }
        ensures style { self.new.style ≡ self.old.style }
    {
        match put_callable(alloc, &self.kept, name, out) {
            Err(error) => Err(error),
            Ok(true) => Ok(()),
            Ok(false) => self.ask_type(alloc, session, name, out),
        }
    }

    // Asks the session for the type of an expression.
    #[tactic(auto, using(crate::proofs::Conversations::given_none))]
    fn ask_type(
        &mut self,
        alloc: Global,
        session: &mut Session,
        exp: &[u8],
        out: &mut Vec<u8>,
    ) -> Result<(), AllocError>
        requires form { self.old.form.items ≡ [] }
        ensures said { WasGiven session.old session.new }
        ensures form { self.new.form.items ≡ [] }
        ensures style { self.new.style ≡ self.old.style }
    {
        let command = match type_command(alloc, exp) {
            Ok(command) => command,
            Err(error) => return Err(error),
        };
        match self.gather(command.as_slice()) {
            Err(error) => Err(error),
            Ok(()) => {
                let output = self.answer_form(alloc, session, self.style.without_prompts());
                put_text(out, &output)
            }
        }
    }

    // Has the session answer the lines of a file.
    #[tactic(auto, using(crate::proofs::Conversations::given_none))]
    fn load(
        &mut self,
        alloc: Global,
        session: &mut Session,
        path: &[u8],
        out: &mut Vec<u8>,
    ) -> Result<(), AllocError>
        requires form { self.old.form.items ≡ [] }
        ensures said { WasGiven session.old session.new }
        ensures form { self.new.form.items ≡ [] }
        ensures style { self.new.style ≡ self.old.style }
    {
        let read = match path_of(path) {
            Some(path) => self.shelf.read(alloc, path),
            None => Err(ShelfFault::Absent),
        };
        match read {
            Ok(text) => self.answer_text(alloc, session, text.as_slice(), out),
            Err(fault) => put_fault(alloc, out, "load", path, fault),
        }
    }

    // Has the session answer the lines of a text. A form that goes on ends with the text.
    fn answer_text(
        &mut self,
        alloc: Global,
        session: &mut Session,
        text: &[u8],
        out: &mut Vec<u8>,
    ) -> Result<(), AllocError>
        ensures said { WasGiven session.old session.new }
        ensures form { self.new.form.items ≡ [] }
        ensures style { self.new.style ≡ self.old.style }
    {
        let put = self.answer_lines(alloc, session, text, out);
        if !self.has_form() {
            return put;
        }
        let output = self.answer_form(alloc, session, self.style.without_prompts());
        put?;
        put_text(out, &output)
    }

    // Has the session answer the lines of a text. A form may stay unfinished.
    fn answer_lines(
        &mut self,
        alloc: Global,
        session: &mut Session,
        text: &[u8],
        out: &mut Vec<u8>,
    ) -> Result<(), AllocError>
        ensures said { WasGiven session.old session.new }
        ensures style { self.new.style ≡ self.old.style }
    {
        let mut rest = text;
        'lines: while let Some((line, after)) = cut_line(rest) {
            self.answer_line(alloc, session, line, out)?;
            rest = after;
        }
        self.answer_line(alloc, session, rest, out)
    }

    // Has the session answer a line of a text. Blank lines between forms are skipped.
    #[tactic(auto, using(crate::proofs::Conversations::given_none))]
    fn answer_line(
        &mut self,
        alloc: Global,
        session: &mut Session,
        line: &[u8],
        out: &mut Vec<u8>,
    ) -> Result<(), AllocError>
        ensures said { WasGiven session.old session.new }
        ensures style { self.new.style ≡ self.old.style }
    {
        let line = line.strip_suffix(b"\r".as_slice()).unwrap_or(line);
        if is_blank(line) && !self.has_form() {
            return Ok(());
        }
        let output = self.take(alloc, session, line, self.style.without_prompts());
        put_text(out, &output)
    }

    // Answers a line.
    fn answer(&mut self, alloc: Global, session: &mut Session, line: &[u8]) -> Told
        ensures turn { Turn (is_plain self.old.style) (record { form = self.old.form.items; log = session.old })
            line.now (text_told line.now result) (record { form = self.new.form.items; log = session.new }) }
        ensures style { self.new.style ≡ self.old.style }
    {
        if self.has_form() {
            self.take(alloc, session, line, self.style)
        } else {
            self.hear_first(alloc, session, line)
        }
    }

    // Whether the conversation ends with this line.
    fn quits(&self, line: &[u8]) -> bool
        ensures { result ≡ true → is_quit line.now ≡ true }
    {
        !self.has_form() && is_quit(line)
    }

    // Answers a line while no form is unfinished.
    fn hear_first(&mut self, alloc: Global, session: &mut Session, line: &[u8]) -> Told
        requires form { self.old.form.items ≡ [] }
        ensures turn { Turn (is_plain self.old.style) (record { form = self.old.form.items; log = session.old })
            line.now (text_told line.now result) (record { form = self.new.form.items; log = session.new }) }
        ensures style { self.new.style ≡ self.old.style }
    {
        match word_in(line) {
            Some(word) => self.obey_word(alloc, session, word),
            None => {
                if is_pause(session, line) {
                    return Told::Text(prompt(alloc, self.style, false));
                }
                self.take(alloc, session, line, self.style)
            }
        }
    }

    // Obeys a word of the prompt, and returns the text to write. No prompt follows the last word.
    fn obey_word(&mut self, alloc: Global, session: &mut Session, word: Word<'_>) -> Told
        requires form { self.old.form.items ≡ [] }
        ensures said { Obeyed (word_gives_lines word.entry) session.old session.new }
        ensures form { self.new.form.items ≡ [] }
        ensures style { self.new.style ≡ self.old.style }
    {
        let mut out = Vec::new(alloc);
        let obeyed = self.obey(alloc, session, word, &mut out);
        if let Word::Quit = word {
            return Told::Text(out);
        }
        let is_open = !session.pending().is_empty();
        match obeyed {
            Ok(()) => Told::Text(with_prompt(self.style, is_open, out)),
            Err(_) => {
                let more = prompt(alloc, self.style, is_open);
                Told::With(Answer::no_memory(), more)
            }
        }
    }
}

impl<F: Shelf> Hearer for Desk<'_, F> {
    type World = Session;

    ghost heard = { λ first start now session lines texts. (now.style ≡ first.style)
        × Conversed (is_plain first.style) (record { form = first.form.items; log = start }) lines texts
        (record { form = now.form.items; log = session })
        × (now.is_over ≡ true → EndsWithQuit lines) };

    ghost over = { λ desk. desk.is_over };

    ghost ready = { λ desk session. ⊤ };

    fn hear(&mut self, alloc: Global, world: &mut Session, line: &[u8]) -> Told {
        let is_over = self.quits(line);
        let told = self.answer(alloc, world, line);
        self.is_over = is_over;
        told
    }

    fn is_over(&self) -> bool {
        self.is_over
    }
}

// Writes the types of the functions of this name, and returns whether there are any.
fn put_callable(
    alloc: Global,
    kept: &Kept,
    name: &[u8],
    out: &mut Vec<u8>,
) -> Result<bool, AllocError> {
    let small = lower(alloc, name)?;
    if let Ok(text) = str::from_utf8(small.as_slice()) {
        if put_types(alloc, out, text)? {
            return Ok(true);
        }
    }
    let Some(text) = kept.callable(small.as_slice()) else {
        return Ok(false);
    };
    out.extend_from_slice(text)?;
    out.push(b'\n')?;
    Ok(true)
}

// Joins a form to the parts of it that the session has already.
fn whole(before: Result<Vec<u8>, AllocError>, typed: Typed) -> Result<Typed, AllocError> {
    typed.after(before?)
}

// Writes the last reply that was cut, whole.
fn put_long(out: &mut Vec<u8>, long: Option<&Answer>) -> Result<(), AllocError> {
    match long {
        Some(answer) => out.extend_from_slice(answer.bytes()),
        None => out.extend_from_slice(b"no reply was cut so far\n"),
    }
}

// Writes where the work and the depth of an expression come from. The session doesn't get it.
fn put_account(
    alloc: Global,
    out: &mut Vec<u8>,
    session: &Session,
    exp: &[u8],
) -> Result<(), AllocError> {
    let lines = account_lines(alloc, session, exp)?;
    for line in &lines {
        out.extend_from_slice(line.bytes())?;
        out.push(b'\n')?;
    }
    Ok(())
}

// Returns the hint below the reply to a form, if the style has hints and there is one.
fn hint_below(
    alloc: Global,
    session: &Session,
    style: Style,
    typed: &Result<Typed, AllocError>,
    answer: &Answer,
) -> Vec<u8>
    ensures wanted { style.hints ≡ false → result.items ≡ [] }
    ensures faulted { answer.now.fault ≡ None → result.items ≡ [] }
{
    if !style.hints || answer.fault().is_none() {
        return Vec::new(alloc);
    }
    let Ok(typed) = typed else {
        return Vec::new(alloc);
    };
    hint_text(alloc, session, typed, answer).unwrap_or(Vec::new(alloc))
}

// Returns the hint on a form with this answer, below the place that it is about.
fn hint_text(
    alloc: Global,
    session: &Session,
    typed: &Typed,
    answer: &Answer,
) -> Result<Vec<u8>, AllocError> {
    let mut out = Vec::new(alloc);
    if let Some(hint) = hint_on(alloc, session, typed.form.as_slice(), answer)? {
        put_hint(alloc, &mut out, typed, &hint)?;
    }
    Ok(out)
}

// Whether a line is blank and the session has no part of a form: then no form begins with it.
fn is_pause(session: &Session, line: &[u8]) -> bool
    ensures { result ≡ true → IsBlank line.now }
{
    session.pending().is_empty() && is_blank(line)
}

// Returns a prompt, if the style has prompts.
fn prompt(alloc: Global, style: Style, is_open: bool) -> Vec<u8>
    ensures plain { is_plain style ≡ true → result.items ≡ [] }
    ensures below { (fault : Option Fault) → IsBelow (is_plain style) fault result.items }
{
    with_prompt(style, is_open, Vec::new(alloc))
}

// Adds a prompt to a text, if the style has prompts.
#[tactic(auto, using(crate::proofs::Conversations::signed, crate::proofs::Conversations::unsigned))]
fn with_prompt(style: Style, is_open: bool, text: Vec<u8>) -> Vec<u8>
    ensures unwanted { style.prompts ≡ false → result.items ≡ text.items }
    ensures prompted { (sign : List ℕ) × IsSign sign × (result.items ≡ text.items ++ sign) }
{
    if !style.prompts {
        return text;
    }
    let mut text = text;
    match text.extend_from_slice(sign(is_open)) {
        Ok(()) => text,
        Err(_) => text,
    }
}

// Returns the prompt within a form, or the one before a form.
fn sign(is_open: bool) -> &'static [u8]
    ensures { result.now ≡ (if is_open then codes ". " else codes "> ") }
{
    if is_open { b". " } else { b"> " }
}

// Returns the note on forms that go on, the first time that one does.
fn note_on_forms(alloc: Global, style: Style, is_first: bool) -> Vec<u8>
    ensures { style.prompts ≡ false → result.items ≡ [] }
{
    if style.prompts && style.hints && is_first {
        return Vec::from_slice(alloc, GOES_ON).unwrap_or(Vec::new(alloc));
    }
    Vec::new(alloc)
}

// Returns the command that asks for the type of an expression.
fn type_command(alloc: Global, exp: &[u8]) -> Result<Vec<u8>, AllocError> {
    let mut line = Vec::from_slice(alloc, b":type ")?;
    line.extend_from_slice(exp)?;
    line.push(b';')?;
    Ok(line)
}

fn put_text(out: &mut Vec<u8>, output: &Told) -> Result<(), AllocError> {
    match output {
        Told::Back => Ok(()),
        Told::By(answer) => out.extend_from_slice(answer.bytes()),
        Told::Text(text) => out.extend_from_slice(text.as_slice()),
        Told::With(answer, more) => {
            out.extend_from_slice(answer.bytes())?;
            out.extend_from_slice(more.as_slice())
        }
    }
}

// Splits a text after its first LF. Returns the first line without the LF, and the rest, or `None` if there is no LF.
fn cut_line(text: &[u8]) -> Option<(&[u8], &[u8])>
    ensures { IfSome result (λ parts. length parts.1.now < length text.now) }
{
    match first_feed(text) {
        Some(place) => Some((&text[..place], &text[place + 1..])),
        None => None,
    }
}

// Finds the first LF.
fn first_feed(bytes: &[u8]) -> Option<usize>
    ensures { IfSome result (λ place. place < length bytes.now) }
{
    memchr(b'\n', bytes)
}

// Returns the path of a file, if it is UTF-8.
fn path_of(path: &[u8]) -> Option<&str> {
    if path.is_empty() {
        return None;
    }
    match str::from_utf8(path) {
        Ok(path) => Some(path),
        Err(_) => None,
    }
}

// Writes the number of forms that were saved.
fn put_count(alloc: Global, out: &mut Vec<u8>, count: usize) -> Result<(), AllocError> {
    let text = format!(in alloc; "saved: forms {count}\n")?;
    out.extend_from_slice(text.as_bytes())
}

// Writes why a file can't be loaded or saved.
fn put_fault(
    alloc: Global,
    out: &mut Vec<u8>,
    word: &str,
    path: &[u8],
    fault: ShelfFault,
) -> Result<(), AllocError> {
    let text = format!(in alloc; "{word}: {fault}: ")?;
    out.extend_from_slice(text.as_bytes())?;
    out.extend_from_slice(path)?;
    out.push(b'\n')?;
    Ok(())
}
