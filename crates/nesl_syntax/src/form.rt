// The form of a line's tokens.

ghost use Rattle.std.specs.Prelude.{◌≡◌, ◌≤◌, ◌<◌, IfOk, IfSome, IfNone, IsErrOf, IsTrue, ◌↔◌, List, codes, option_map};
ghost use Rattle.nesl_syntax_tree.specs.Trees.{FormTree, form_height};
ghost use Rattle.nesl_syntax_tree.specs.Trees as trees;
ghost use Rattle.nesl_syntax_tree.specs.Views.{line_of};
ghost use Rattle.nesl_syntax_tree.specs.Lines.{IsForm};
ghost use Rattle.nesl_syntax.specs.Reading as reading;
ghost use Rattle.nesl_syntax.specs.Given.{IsCommand, GivesExp, GivesLine, line_tree};
ghost use Rattle.nesl_syntax_open.specs.Machine as machine;
ghost use Rattle.nesl_lex.specs.Tokens.{Placed, placed, lexeme_of, symbol};
ghost use Rattle.nesl_lex.specs.Tokens as lexemes;

use crate::function::function;
use crate::line::{Line, form_of};
use crate::parse::{expression, written_type};
use crate::text::is_text;
use nesl_lex::token::{Kind, Name, Sign, Token, Word};
use nesl_syntax_open::ParseFault;
use nesl_syntax_tree::parts::part::Part;
use nesl_syntax_tree::parts::types::TypePart;
use nesl_syntax_tree::tree::{Exp, Form};
use std::alloc::Global;

// The expression that the tokens are, where it isn't too high.
fn body(alloc: Global, tokens: &[Token]) -> Result<Box<Exp>, ParseFault>
    ensures { GivesExp result (machine.expression (placed tokens.now)) }
{
    match expression(alloc, tokens)? {
        Part::Built { exp, .. } => Ok(exp),
        Part::High(_) => Err(ParseFault::Nested),
    }
}

// An expression's line.
fn eval(alloc: Global, tokens: &[Token]) -> Result<Line, ParseFault>
    ensures { GivesLine result (option_map trees.evaluate (machine.expression (placed tokens.now))) }
{
    Ok(Line::Eval(body(alloc, tokens)?))
}

// A line that binds this name to what the tokens are.
fn bind(alloc: Global, name: &Name, tokens: &[Token]) -> Result<Line, ParseFault>
    ensures { GivesLine result (option_map (trees.bind name.now.letters.items)
        (machine.expression (placed tokens.now))) }
{
    let name = Vec::from_slice(alloc, name.as_slice())?;
    Ok(Line::Bind {
        name,
        value: body(alloc, tokens)?,
    })
}

// A line that begins with a name: a binding, where a `=` follows it, or else an expression.
fn named(alloc: Global, name: &Name, tokens: &[Token], behind: &[Token]) -> Result<Line, ParseFault>
    ensures { GivesLine result (reading.bound_in name.now.letters.items (placed tokens.now) (placed behind.now)) }
{
    let [first, rest @ ..] = behind else {
        return eval(alloc, tokens);
    };
    match &first.kind {
        Kind::Symbol(sign) => match sign {
            Sign::Equal => bind(alloc, name, rest),
            _ => eval(alloc, tokens),
        },
        _ => eval(alloc, tokens),
    }
}

// A datatype's line after its name.
fn datatype_named(alloc: Global, name: &Name, tokens: &[Token]) -> Result<Line, ParseFault>
    ensures { GivesLine result (option_map (trees.datatype name.now.letters.items)
        (machine.written_type (placed tokens.now))) }
{
    let name = Vec::from_slice(alloc, name.as_slice())?;
    match written_type(alloc, tokens)? {
        TypePart::Built { written, .. } => Ok(Line::Datatype {
            name,
            content: written,
        }),
        TypePart::High => Err(ParseFault::Nested),
    }
}

// A datatype's line after its first word.
fn datatype(alloc: Global, tokens: &[Token]) -> Result<Line, ParseFault>
    ensures { GivesLine result (reading.datatype_in (placed tokens.now)) }
{
    let [first, rest @ ..] = tokens else {
        return Err(ParseFault::Syntax);
    };
    match &first.kind {
        Kind::Name(name) => datatype_named(alloc, name, rest),
        _ => Err(ParseFault::Syntax),
    }
}

// Whether it is the word of the command that asks for a type.
fn is_type(name: &[u8]) -> bool
    ensures { result ≡ reading.is_text name.now (codes "type") }
{
    name == b"type".as_slice()
}

// The command that asks for a type, after its word.
fn show_named(alloc: Global, name: &Name, tokens: &[Token]) -> Result<Line, ParseFault>
    ensures { GivesLine result (reading.typed_named (lexemes.name name.now.letters.items) (placed tokens.now)) }
{
    if !is_type(name.as_slice()) {
        return Err(ParseFault::Syntax);
    }
    Ok(Line::ShowType(body(alloc, tokens)?))
}

// The command that asks for a type, after its `:`.
fn show_type(alloc: Global, tokens: &[Token]) -> Result<Line, ParseFault>
    ensures { GivesLine result (reading.typed_in (placed tokens.now)) }
{
    let [first, rest @ ..] = tokens else {
        return Err(ParseFault::Syntax);
    };
    match &first.kind {
        Kind::Name(name) => show_named(alloc, name, rest),
        _ => Err(ParseFault::Syntax),
    }
}

// The line of the tokens before a last `;`.
fn line(alloc: Global, tokens: &[Token]) -> Result<Line, ParseFault>
    ensures { GivesLine result (reading.line_in (placed tokens.now)) }
{
    let [first, rest @ ..] = tokens else {
        return eval(alloc, tokens);
    };
    match &first.kind {
        Kind::Name(name) => named(alloc, name, tokens, rest),
        Kind::Reserved(word) => match word {
            Word::Function => function(alloc, rest),
            Word::Datatype => datatype(alloc, rest),
            _ => eval(alloc, tokens),
        },
        Kind::Symbol(sign) => match sign {
            Sign::Colon => show_type(alloc, rest),
            _ => eval(alloc, tokens),
        },
        _ => eval(alloc, tokens),
    }
}

// The command of a word that no `;` follows.
fn command_named(name: &[u8]) -> Option<Line>
    ensures some { IfSome result (λ line. IsCommand name.now (line_tree line)) }
    ensures none { IfNone result ((line : FormTree) → IsCommand name.now line → ⊥) }
{
    if is_text(name, b"names") {
        Some(Line::ShowNames)
    } else if is_text(name, b"budget") {
        Some(Line::ShowBudget)
    } else {
        None
    }
}

fn command_of(name: &[u8]) -> Option<Line>
    ensures { option_map line_tree result ≡ reading.command_of name.now }
{
    command_named(name)
}

// A `:` and such a word.
fn command_with(first: &Token, second: &Token) -> Option<Line>
    ensures { option_map line_tree result
        ≡ reading.command_with (lexeme_of first.now.kind) (lexeme_of second.now.kind) }
{
    match &first.kind {
        Kind::Symbol(sign) => match sign {
            Sign::Colon => match &second.kind {
                Kind::Name(name) => command_of(name.as_slice()),
                _ => None,
            },
            _ => None,
        },
        _ => None,
    }
}

// The command that ends in no `;`.
fn command(tokens: &[Token]) -> Option<Line>
    ensures { option_map line_tree result ≡ reading.command_in (placed tokens.now) }
{
    match tokens {
        [first, second] => command_with(first, second),
        _ => None,
    }
}

// Whether it is a `;`.
fn is_semicolon(token: &Token) -> bool
    ensures { IsTrue result ↔ (lexeme_of token.now.kind ≡ symbol Sign.Semicolon) }
{
    match &token.kind {
        Kind::Symbol(sign) => *sign == Sign::Semicolon,
        _ => false,
    }
}

// The one line of tokens.
fn read_line(alloc: Global, tokens: &[Token]) -> Result<Line, ParseFault>
    // The tokens are this form, and no other tree of any height.
    ensures tree { IfOk result (λ line. IsForm (placed tokens.now) (line_tree line)) }
    ensures only { IfOk result (λ line. (other : FormTree) → IsForm (placed tokens.now) other →
        other ≡ line_tree line) }
    ensures low { IfOk result (λ line. form_height (line_tree line) ≤ 100) }

    // They have no tree of any height.
    ensures syntax { IsErrOf result ParseFault.Syntax → (other : FormTree) → IsForm (placed tokens.now) other → ⊥ }

    // They have a tree, and it is too high.
    ensures nested { IsErrOf result ParseFault.Nested →
        (other : FormTree) × IsForm (placed tokens.now) other × (100 < form_height other) }
{
    if let Some(line) = command(tokens) {
        return Ok(line);
    }
    let Some((last, rest)) = tokens.split_last() else {
        return Ok(Line::Nothing);
    };
    if !is_semicolon(last) {
        return Err(ParseFault::Syntax);
    }
    line(alloc, rest)
}

/// The one form of a line's tokens.
pub fn parse_form(alloc: Global, tokens: &[Token]) -> Result<Form, ParseFault>
    // The tokens are this form, and no other tree of any height.
    ensures tree { IfOk result (λ form. IsForm (placed tokens.now) (line_of form)) }
    ensures only { IfOk result (λ form. (other : FormTree) → IsForm (placed tokens.now) other → other ≡ line_of form) }
    ensures low { IfOk result (λ form. form_height (line_of form) ≤ 100) }

    // They have no tree of any height.
    ensures syntax { IsErrOf result ParseFault.Syntax → (line : FormTree) → IsForm (placed tokens.now) line → ⊥ }

    // They have a tree, and it is too high.
    ensures nested { IsErrOf result ParseFault.Nested →
        (line : FormTree) × IsForm (placed tokens.now) line × (100 < form_height line) }
{
    match read_line(alloc, tokens) {
        Ok(line) => Ok(form_of(line)),
        Err(fault) => Err(fault),
    }
}

/// Tokens have at most one line.
pub fn one_form()
    ensures { (ts : List Placed) (a b : FormTree) → IsForm ts a → IsForm ts b → a ≡ b }
{}
