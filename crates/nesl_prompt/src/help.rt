//! The answers to `:help`.

use crate::functions::{put_functions, put_names};
use crate::kept::Kept;
use crate::wrapped::put_wrapped;
use nesl_hints::hint;
use nesl_session::session::Session;
use std::alloc::{AllocError, Global};

/// The greeting, and the first prompt.
pub const GREETING: &[u8] =
    b"Pazkindu: NESL, with the work and the depth of each line. `:help` lists what\n\
there is, and `:quit` ends. A form ends in `;`, as in `2 * 3 + 1;`.\n> ";

/// The note that is written the first time that a form goes on.
pub const GOES_ON: &[u8] = b"  (the form goes on until its `;`, and two empty lines end it)\n";

const OVERVIEW: &[u8] = b"\
A form ends in `;`, and may go on over lines; two empty lines end it too.

  exp;                          evaluates, and binds the value to `it`
  name = exp;                   evaluates, and binds the value to the name
  function name(a, b) = exp;    defines a function
  datatype name (type, type);   defines a datatype
  :type exp;                    shows the type that the expression would have
  :names  :budget  :reset       show the names, show what is left, forget all

  {exp : a in v; b in w | exp}  let a = exp; b = exp in exp
  if exp then exp else exp      [1, 2]  [] int  [1:9:2]  v[i]  \"text\"  `c  T  F

Words of this prompt, which the session doesn't get:
  :help NAME   explains a function or a sign: `:help take`, `:help ++`
  :type NAME   shows the type of a function, too
  :cost EXP    shows where the work and the depth of an expression come from
  :more        writes the whole of a long reply, which was cut
  :list        lists the forms that bound a name, and comments
  :save FILE   writes these into a file
  :load FILE   runs the lines of a file
  :quit        ends, as the end of input does
`:help functions` lists all functions and signs, and `:help let` explains `let`.
";

/// The help on an apply-to-each.
const EACH: &[u8] = b"\
{e : p in e; q in e; .. | e}
  evaluates the body at each place that the filter keeps, all in parallel
  work 1 + the nodes of each value, depth 1 + the deepest filter and body
";

/// The forms that `:help` explains, each with its name.
const FORMS: [(&[u8], &[u8]); 9] = [
    (
        b"let",
        b"\
let p = e; q = e; .. in e
  binds in order; each binding sees those before it
  work 1 and depth 1, besides the parts
",
    ),
    (
        b"if",
        b"\
if e then e else e
  only the branch that is taken is evaluated
  work 1 and depth 1, besides the parts
",
    ),
    (
        b"function",
        b"\
function name pattern [: type -> type [:: (name in class; ..)]] = exp;
  defines a function
  a call costs work 1 and depth 1, besides the argument and the body
",
    ),
    (
        b"datatype",
        b"\
datatype name type;
  defines a datatype, which wraps one value: `name(e)` makes one
  a record costs work 1 and depth 1, besides its part
",
    ),
    (b"in", EACH),
    (b"{", EACH),
    (
        b"names",
        b":names\n  shows the names in order of first definition\n",
    ),
    (
        b"budget",
        b":budget\n  shows the work that is left, and how much of the other limits is used\n",
    ),
    (
        b"reset",
        b":reset\n  forgets all but the work that was used\n",
    ),
];

/// Writes the overview, or the help on a name.
pub fn put_help(
    alloc: Global,
    out: &mut Vec<u8>,
    session: &Session,
    kept: &Kept,
    name: &[u8],
) -> Result<(), AllocError> {
    if name.is_empty() {
        return out.extend_from_slice(OVERVIEW);
    }
    let name = lower(alloc, name)?;
    if name.as_slice() == b"functions".as_slice() {
        out.extend_from_slice(b"Functions and signs:\n")?;
        return put_names(out);
    }
    if let Ok(text) = str::from_utf8(name.as_slice()) {
        if put_functions(alloc, out, text)? {
            return Ok(());
        }
    }
    if put_form(out, name.as_slice())? {
        return Ok(());
    }
    if let Some(text) = kept.callable(name.as_slice()) {
        out.extend_from_slice(text)?;
        out.push(b'\n')?;
        return Ok(());
    }
    put_unknown(alloc, out, session, name.as_slice())
}

// Writes the help on a form, and returns whether there is a form with this name.
fn put_form(out: &mut Vec<u8>, name: &[u8]) -> Result<bool, AllocError> {
    let name = name.strip_prefix(b":".as_slice()).unwrap_or(name);
    for (known, text) in &FORMS {
        if *known == name {
            out.extend_from_slice(text)?;
            return Ok(true);
        }
    }
    Ok(false)
}

// Writes that there is no help on a name, and the hint on a call of it, which tells a name that is near to it.
fn put_unknown(
    alloc: Global,
    out: &mut Vec<u8>,
    session: &Session,
    name: &[u8],
) -> Result<(), AllocError> {
    out.extend_from_slice(b"there is no help on `")?;
    out.extend_from_slice(name)?;
    out.extend_from_slice(b"`; `:help` lists what there is\n")?;
    if !session.pending().is_empty() || !is_name(name) {
        return Ok(());
    }
    let mut call = Vec::from_slice(alloc, name)?;
    call.extend_from_slice(b"(0);")?;
    match hint(alloc, session, call.as_slice())? {
        Some(hint) => {
            out.extend_from_slice(b"  ")?;
            put_wrapped(out, hint.sentence.as_slice(), 2, b"  ")
        }
        None => Ok(()),
    }
}

// Whether a text can be a name.
fn is_name(text: &[u8]) -> bool {
    let is_begun = text.first().is_some_and(|byte| byte.is_ascii_alphabetic());
    is_begun
        && text
            .iter()
            .all(|byte| byte.is_ascii_alphanumeric() || *byte == b'_')
}

/// Returns a text with its ASCII letters in lower case.
pub fn lower(alloc: Global, text: &[u8]) -> Result<Vec<u8>, AllocError> {
    let mut small = Vec::with_capacity(alloc, text.len())?;
    for byte in text {
        small.push(byte.to_ascii_lowercase())?;
    }
    Ok(small)
}
