//! The prompt's own words.
ghost use Rattle.std.specs.Prelude.{◌≡◌, false, true, IfNone, IfSome};
ghost use Rattle.nesl_prompt.specs.Words.{IsBlank, asks_type, gives_lines, is_blank_byte, is_own, is_part, is_quit};
ghost use Rattle.nesl_prompt.specs.Words.{word_gives_lines};

/// A word of the prompt's own, with its argument.
#[derive(Clone, Copy, PartialEq, Eq, Debug)]
pub enum Word<'a> {
    /// Explains a name, or lists what there is if the name is empty.
    Help(&'a [u8]),
    /// Writes the type of an expression, or of a function.
    TypeOf(&'a [u8]),
    /// Writes the last reply that was cut, whole.
    More,
    /// Writes where the work and the depth of this expression come from.
    Cost(&'a [u8]),
    /// Lists the kept forms.
    Kept,
    /// Has the session answer the lines of this file.
    Load(&'a [u8]),
    /// Writes the kept forms into this file.
    Save(&'a [u8]),
    Quit,
}

/// The length of each word in bytes.
const WORD_BYTES: usize = 5;

/// Returns the prompt's own word that a line begins with. `:type` is the prompt's own unless the line has a `;` or ends
/// in `\`; otherwise it is a command of the session.
pub fn word_in(line: &[u8]) -> Option<Word<'_>>
    ensures own { IfSome result (λ word. is_own line.now ≡ true) }
    ensures said { IfSome result (λ word. word_gives_lines word ≡ gives_lines line.now) }
    ensures none { IfNone result (is_own line.now ≡ false) }
{
    if line.starts_with(b":help") {
        return Some(Word::Help(argument_of(line)));
    }
    if line.starts_with(b":more") {
        return Some(Word::More);
    }
    if line.starts_with(b":cost") {
        return Some(Word::Cost(argument_of(line)));
    }
    if line.starts_with(b":list") {
        return Some(Word::Kept);
    }
    if line.starts_with(b":save") {
        return Some(Word::Save(argument_of(line)));
    }
    if is_quit(line) {
        return Some(Word::Quit);
    }
    if line.starts_with(b":load") {
        return Some(Word::Load(argument_of(line)));
    }
    if is_type(line) {
        return Some(Word::TypeOf(argument_of(line)));
    }
    None
}

/// Whether a line ends the conversation while no form is unfinished.
pub fn is_quit(line: &[u8]) -> bool
    ensures { result ≡ is_quit line.now }
{
    line.starts_with(b":quit")
}

fn is_type(line: &[u8]) -> bool
    ensures { result ≡ asks_type line.now }
{
    line.starts_with(b":type") && !line.contains(&b';') && !is_part(line)
}

/// Whether a line ends in `\`, so that a session takes it for a part of a form.
pub fn is_part(line: &[u8]) -> bool
    ensures { result ≡ is_part line.now }
{
    line.ends_with(b"\\")
}

// Returns the argument of a word, without blanks around it and without a `;` at its end.
fn argument_of(line: &[u8]) -> &[u8] {
    let rest = line.get(WORD_BYTES..).unwrap_or(&[]);
    let rest = rest.trim_ascii();
    let rest = rest.strip_suffix(b";".as_slice()).unwrap_or(rest);
    rest.trim_ascii()
}

/// Whether a line is empty, or has only blanks.
pub fn is_blank(line: &[u8]) -> bool
    ensures yes { result ≡ true → IsBlank line.now }
    ensures no { result ≡ false → ¬ IsBlank line.now }
{
    line.iter().all(|byte| is_blank_byte(*byte))
}

fn is_blank_byte(byte: u8) -> bool
    ensures { result ≡ is_blank_byte byte }
{
    byte == b' ' || byte == b'\t' || byte == b'\r'
}
