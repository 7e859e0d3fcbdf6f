//! The texts of types and schemes.

ghost use Rattle.std.specs.Prelude.{◌≡◌, ◌++◌, ◌∷◌, [], ◌<◌, ℕ, Bool, true, if◌then◌else◌, List, length, IfOk, OnOk};
ghost use Rattle.std.specs.Prelude.{codes};
ghost use Rattle.nesl_types.specs.Texts.{variable_text, type_text as text_of_type, member_texts, members_text};
ghost use Rattle.nesl_types_shared.specs.Types.{type_at};
ghost use Rattle.nesl_types.specs.Texts.{name_at, scheme_text as text_of_scheme};
ghost use Rattle.nesl_types.specs.Pieces.{IsPieceBelow, IsBegun, IsWritten};

use crate::bindings::Context;
use crate::classes::Class;
use crate::schemes::Scheme;
use itoa::Buffer;
use nesl_types_shared::{Parts, Shape, Ty};
use std::alloc::{AllocError, Global};

/// How many bytes of a text room is taken for at first.
const TEXT_ROOM: usize = 64;

/// How deep the parts of a type lie that are written without a stack.
const MOST_DEPTH: u64 = 32;

/// How many pieces of a type room is taken for at first.
const STACK_ROOM: usize = 8;

/// A piece of a text that is still to be written.
#[derive(Clone, Copy)]
enum Piece {
    Byte(u8),
    /// The type at a place, and whether it has brackets where it is a pair.
    TypeAt(usize, bool),
}

/// Writes the name of a variable.
fn write_variable(out: &mut Vec<u8>, variable: u64) -> Result<(), AllocError>
    ensures { OnOk result (out.new.items ≡ out.old.items ++ variable_text variable) }
{
    out.push(b'a' + (variable % 26) as u8)?;
    if variable >= 26 {
        let mut buffer = Buffer::new();
        out.extend_from_slice(buffer.format(variable / 26).as_bytes())?;
    }
    Ok(())
}

/// Writes the name of the datatype with the tag.
fn write_name<P: Drop>(out: &mut Vec<u8>, context: &Context<P>, tag: u64) -> Result<(), AllocError>
    ensures { OnOk result (out.new.items ≡ out.old.items ++ name_at context.now tag) }
{
    if let Some((name, _, _)) = context.datatype(tag) {
        out.extend_from_slice(name)?;
    }
    Ok(())
}

/// Writes the opening bracket of a pair where it is wanted, and leaves the closing one on the stack.
fn write_bracket(
    out: &mut Vec<u8>,
    stack: &mut Vec<Piece>,
    brackets: bool,
) -> Result<(), AllocError>
    ensures out { OnOk result (out.new.items ≡ out.old.items ++ (if brackets then 40 ∷ [] else [])) }
    ensures stack { OnOk result (stack.new.items ≡ stack.old.items ++ (if brackets then Piece.Byte 41 ∷ [] else [])) }
{
    if brackets {
        out.push(b'(')?;
        stack.push(Piece::Byte(b')'))?;
    }
    Ok(())
}

/// Writes the text of a pair as far as its first part, and leaves the rest on the stack.
fn write_pair(
    out: &mut Vec<u8>,
    stack: &mut Vec<Piece>,
    first: usize,
    second: usize,
    brackets: bool,
) -> Result<(), AllocError>
    ensures { OnOk result ((names : ℕ → List ℕ) → IsBegun names brackets
        (Shape.Both first second) out.old.items out.new.items stack.old.items stack.new.items) }
{
    write_bracket(out, stack, brackets)?;
    stack.push(Piece::TypeAt(second, false))?;
    stack.push(Piece::Byte(b' '))?;
    stack.push(Piece::Byte(b','))?;
    stack.push(Piece::TypeAt(first, true))?;
    Ok(())
}

/// Writes the text of sequences as far as their items, and leaves the rest on the stack.
fn write_seq(out: &mut Vec<u8>, stack: &mut Vec<Piece>, item: usize) -> Result<(), AllocError>
    ensures { OnOk result ((names : ℕ → List ℕ) → (brackets : Bool)
        → IsBegun names brackets (Shape.SeqOf item) out.old.items out.new.items stack.old.items stack.new.items) }
{
    out.push(b'[')?;
    stack.push(Piece::Byte(b']'))?;
    stack.push(Piece::TypeAt(item, true))?;
    Ok(())
}

/// Writes the text of a type as far as its first part, and leaves the rest on the stack.
fn write_shape<P: Drop>(
    out: &mut Vec<u8>,
    stack: &mut Vec<Piece>,
    context: &Context<P>,
    shape: Shape,
    brackets: bool,
) -> Result<(), AllocError>
    ensures { OnOk result (IsBegun (name_at context.now) brackets shape out.old.items out.new.items stack.old.items
        stack.new.items) }
{
    match shape {
        Shape::Int => out.extend_from_slice(b"int")?,
        Shape::Bool => out.extend_from_slice(b"bool")?,
        Shape::Char => out.extend_from_slice(b"char")?,
        Shape::Var(variable) => write_variable(out, variable)?,
        Shape::SeqOf(item) => write_seq(out, stack, item)?,
        Shape::Both(first, second) => write_pair(out, stack, first, second, brackets)?,
        Shape::Named(tag) => write_name(out, context, tag)?,
    }
    Ok(())
}

/// Writes a piece: of a type as much as comes before its first part, with the rest left on the stack.
fn write_piece<P: Drop>(
    out: &mut Vec<u8>,
    stack: &mut Vec<Piece>,
    parts: &Parts<'_>,
    context: &Context<P>,
    piece: Piece,
) -> Result<(), AllocError>
    requires { IsPieceBelow (length parts.now) piece }
    ensures { OnOk result (IsWritten (name_at context.now) (type_at parts.now)
        (length parts.now) piece out.old.items out.new.items stack.old.items stack.new.items) }
{
    match piece {
        Piece::Byte(byte) => out.push(byte)?,
        Piece::TypeAt(place, brackets) => {
            write_shape(out, stack, context, parts.shape(place), brackets)?;
        }
    }
    Ok(())
}

/// Writes the type at a place; a pair has brackets where they are wanted.
fn write_part<P: Drop>(
    alloc: Global,
    out: &mut Vec<u8>,
    parts: &Parts<'_>,
    place: usize,
    context: &Context<P>,
    brackets: bool,
) -> Result<(), AllocError>
    requires { place < length parts.now }
    ensures { OnOk result (out.new.items ≡ out.old.items
        ++ text_of_type (name_at context.now) brackets (type_at parts.now place)) }
{
    let mut stack = Vec::with_capacity(alloc, STACK_ROOM)?;
    stack.push(Piece::TypeAt(place, brackets))?;
    while let Some(piece) = stack.pop() {
        write_piece(out, &mut stack, parts, context, piece)?;
    }
    Ok(())
}

/// Writes the byte where it is wanted.
fn write_if(out: &mut Vec<u8>, wanted: bool, byte: u8) -> Result<(), AllocError>
    ensures { OnOk result (out.new.items ≡ out.old.items ++ (if wanted then byte ∷ [] else [])) }
{
    if wanted {
        out.push(byte)?;
    }
    Ok(())
}

/// Writes the type at a place; a pair has brackets where they are wanted. Only of what lies deeper pieces are put on a
/// stack.
fn write_at<P: Drop>(
    out: &mut Vec<u8>,
    parts: &Parts<'_>,
    context: &Context<P>,
    place: usize,
    brackets: bool,
    depth: u64,
) -> Result<(), AllocError>
    requires { place < length parts.now }
    ensures { OnOk result (out.new.items ≡ out.old.items
        ++ text_of_type (name_at context.now) brackets (type_at parts.now place)) }
{
    let less = match depth.checked_sub(1) {
        Some(less) => less,
        None => return write_part(*out.allocator(), out, parts, place, context, brackets),
    };
    match parts.shape(place) {
        Shape::Int => out.extend_from_slice(b"int")?,
        Shape::Bool => out.extend_from_slice(b"bool")?,
        Shape::Char => out.extend_from_slice(b"char")?,
        Shape::Var(variable) => write_variable(out, variable)?,
        Shape::Named(tag) => write_name(out, context, tag)?,
        Shape::SeqOf(item) => {
            out.push(b'[')?;
            write_at(out, parts, context, item, true, less)?;
            out.push(b']')?;
        }
        Shape::Both(first, second) => {
            write_if(out, brackets, b'(')?;
            write_at(out, parts, context, first, true, less)?;
            out.extend_from_slice(b", ")?;
            write_at(out, parts, context, second, false, less)?;
            write_if(out, brackets, b')')?;
        }
    }
    Ok(())
}

/// Writes the text of a type after what is there. The context has the names of the datatypes.
pub fn write_type<P: Drop>(
    out: &mut Vec<u8>,
    ty: &Ty,
    context: &Context<P>,
) -> Result<(), AllocError>
    ensures { OnOk result (out.new.items ≡ out.old.items ++ text_of_type (name_at context.now) true ty.now) }
{
    let parts = ty.parts();
    write_at(out, &parts, context, parts.len() - 1, true, MOST_DEPTH)
}

/// The text of a type. The context has the names of the datatypes.
pub fn type_text<P: Drop>(
    alloc: Global,
    ty: &Ty,
    context: &Context<P>,
) -> Result<Vec<u8>, AllocError>
    ensures { IfOk result (λ text. text.items ≡ text_of_type (name_at context.now) true ty.now) }
{
    let mut out = Vec::with_capacity(alloc, TEXT_ROOM)?;
    write_type(&mut out, ty, context)?;
    Ok(out)
}

/// Writes what comes before a member: the first has the opening bracket, each other a semicolon.
fn write_lead(out: &mut Vec<u8>, started: bool) -> Result<(), AllocError>
    ensures { OnOk result (out.new.items ≡ out.old.items ++ (if started then codes "; " else codes " :: (")) }
{
    if started {
        out.extend_from_slice(b"; ")?;
    } else {
        out.extend_from_slice(b" :: (")?;
    }
    Ok(())
}

/// Writes a variable and the class that it is in.
fn write_member(
    out: &mut Vec<u8>,
    started: bool,
    variable: u64,
    class: &[u8],
) -> Result<(), AllocError>
    ensures { OnOk result (out.new.items ≡ out.old.items ++ (if started then codes "; " else codes " :: (")
        ++ (variable_text variable ++ class.now)) }
{
    write_lead(out, started)?;
    write_variable(out, variable)?;
    out.extend_from_slice(class)?;
    Ok(())
}

/// Writes the variables that don't stand for any type, with their classes.
fn write_members(out: &mut Vec<u8>, classes: &[Class]) -> Result<(), AllocError>
    ensures { OnOk result (out.new.items ≡ out.old.items ++ members_text (member_texts 0 classes.now)) }
{
    let mut started = false;
    for (variable, class) in classes.iter().enumerate() {
        let name: &[u8] = match class {
            Class::Any => continue,
            Class::Ordinal => b" in ordinal",
            Class::Number => b" in number",
            Class::Logical => b" in logical",
        };
        write_member(out, started, variable as u64, name)?;
        started = true;
    }
    write_if(out, started, b')')
}

/// Writes the text of a scheme after what is there. The context has the names of the datatypes.
pub fn write_scheme<P: Drop>(
    out: &mut Vec<u8>,
    scheme: &Scheme,
    context: &Context<P>,
) -> Result<(), AllocError>
    ensures { OnOk result (out.new.items ≡ out.old.items ++ text_of_scheme (name_at context.now) scheme.now) }
{
    write_type(out, &scheme.argument, context)?;
    out.extend_from_slice(b" -> ")?;
    write_type(out, &scheme.result, context)?;
    write_members(out, &scheme.classes)
}

/// The text of a scheme. The context has the names of the datatypes.
pub fn scheme_text<P: Drop>(
    alloc: Global,
    scheme: &Scheme,
    context: &Context<P>,
) -> Result<Vec<u8>, AllocError>
    ensures { IfOk result (λ text. text.items ≡ text_of_scheme (name_at context.now) scheme.now) }
{
    let mut out = Vec::with_capacity(alloc, TEXT_ROOM)?;
    write_scheme(&mut out, scheme, context)?;
    Ok(out)
}
