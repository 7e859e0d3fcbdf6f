//! Values that are written by recursion, as long as they aren't too deep.

ghost use Rattle.std.specs.Prelude.{◌≡◌, ◌++◌, [], ◌∷◌, OnOk, Bool, true, codes, if◌then◌else◌, unwrap_or};
ghost use Rattle.nesl_values.specs.Tree.{seq, sequence};
ghost use Rattle.nesl_values.specs.View.{tree_of, trees_view, item_trees};
ghost use Rattle.nesl_types.specs.Names.{datatype_at};
ghost use Rattle.nesl_types.specs.Texts.{name_at};
ghost use Rattle.nesl_reply.specs.Values.{datatypes, value_text as text_of_value, later_elements_text, elements_text};
ghost use Rattle.nesl_reply.specs.Values.{left_type, right_type, held_by};

use crate::leaf::{write_character, write_truth};
use crate::value::{
    element_type, held_type, is_text, left_type, right_type, write_by_tasks, write_characters,
    write_integers, write_quoted, write_truths,
};
use crate::writing::{write_bytes, write_integer};
use nesl_types::{Context, Part, Ty};
use nesl_values::{Items, Shape, Value};
use std::alloc::AllocError;

/// The depth down to which the parts of a value are written by recursion. Deeper ones are written by tasks.
const MOST_DEPTH: u64 = 32;

/// A value and its type.
#[derive(Drop)]
pub struct Typed<'a> {
    pub value: &'a Value,
    pub ty: Part<'a>,
}

/// Values of one type.
#[derive(Drop)]
pub struct Listed<'a> {
    pub items: &'a [Value],
    pub ty: Part<'a>,
}

/// Writes a value of a type.
pub(crate) fn write_value<P: Drop>(
    out: &mut Vec<u8>,
    value: &Value,
    ty: &Ty,
    context: &Context<P>,
) -> Result<(), AllocError>
    ensures { OnOk result (out.new.items ≡ out.old.items
        ++ text_of_value (datatypes context.now) true ty.now (tree_of value.now)) }
{
    let ty = ty.whole();
    write_whole(out, context, &Typed { value, ty }, true, MOST_DEPTH)
}

// Writes the byte if it is wanted.
#[inline]
fn write_if(out: &mut Vec<u8>, wanted: bool, byte: u8) -> Result<(), AllocError>
    ensures { OnOk result (out.new.items ≡ out.old.items ++ (if wanted then byte ∷ [] else [])) }
{
    if wanted {
        out.push(byte)?;
    }
    Ok(())
}

// Writes the name of the datatype with this tag.
fn write_name<P: Drop>(out: &mut Vec<u8>, context: &Context<P>, tag: u64) -> Result<(), AllocError>
    ensures { OnOk result (out.new.items ≡ out.old.items ++ name_at context.now tag) }
{
    if let Some((name, _, _)) = context.datatype(tag) {
        write_bytes(out, name)?;
    }
    Ok(())
}

// Writes a value of a type, with brackets around a pair if `brackets` is true. Parts deeper than `depth` are written by
// tasks.
#[cycle(whole)]
fn write_whole<'a, P: Drop>(
    out: &mut Vec<u8>,
    context: &'a Context<P>,
    typed: &Typed<'a>,
    brackets: bool,
    depth: u64,
) -> Result<(), AllocError>
    ensures { OnOk result (out.new.items ≡ out.old.items
        ++ text_of_value (datatypes context.now) brackets typed.now.ty (tree_of typed.now.value.now)) }
{
    let value = typed.value;
    let less = match depth.checked_sub(1) {
        Some(less) => less,
        None => return write_by_tasks(out, context, value, &typed.ty, brackets),
    };
    match value.shape() {
        Shape::Int(n) => write_integer(out, n)?,
        Shape::Bool(b) => write_truth(out, b)?,
        Shape::Char(c) => write_character(out, c)?,
        Shape::Pair(left, right) => {
            write_if(out, brackets, b'(')?;
            write_whole(out, context, &left_of(left, &typed.ty), true, less)?;
            write_bytes(out, b", ")?;
            write_whole(out, context, &right_of(right, &typed.ty), false, less)?;
            write_if(out, brackets, b')')?;
        }
        Shape::Tagged(tag, held) => {
            write_name(out, context, tag)?;
            out.push(b'(')?;
            write_whole(
                out,
                context,
                &held_of(context, tag, held, &typed.ty),
                false,
                less,
            )?;
            out.push(b')')?;
        }
        Shape::Sequence(_) => write_items(out, context, value.items(), &typed.ty, less)?,
    }
    Ok(())
}

// The left part of a pair, with its type; `ty` is the type of the pair.
#[inline]
fn left_of<'a>(value: &'a Value, ty: &Part<'a>) -> Typed<'a>
    ensures value { result.value.now ≡ value.now }
    ensures ty { result.ty ≡ left_type ty.now }
{
    let ty = left_type(ty);
    Typed { value, ty }
}

// The right part of a pair, with its type; `ty` is the type of the pair.
#[inline]
fn right_of<'a>(value: &'a Value, ty: &Part<'a>) -> Typed<'a>
    ensures value { result.value.now ≡ value.now }
    ensures ty { result.ty ≡ right_type ty.now }
{
    let ty = right_type(ty);
    Typed { value, ty }
}

// What a record of the datatype with this tag holds, with its type.
#[inline]
fn held_of<'a, P: Drop>(
    context: &'a Context<P>,
    tag: u64,
    value: &'a Value,
    ty: &Part<'a>,
) -> Typed<'a>
    ensures value { result.value.now ≡ value.now }
    ensures ty { result.ty ≡ unwrap_or (held_by (datatype_at context.now tag)) ty.now }
{
    let ty = held_type(context, tag, ty);
    Typed { value, ty }
}

// Writes a sequence.
#[cycle(whole)]
fn write_items<'a, P: Drop>(
    out: &mut Vec<u8>,
    context: &'a Context<P>,
    items: Items<'a>,
    ty: &Part<'a>,
    depth: u64,
) -> Result<(), AllocError>
    ensures { OnOk result ((brackets : Bool) → out.new.items ≡ out.old.items
        ++ text_of_value (datatypes context.now) brackets ty.now (sequence (item_trees items.entry))) }
{
    match items {
        Items::Values(items) => {
            let ty = ty.again();
            write_values(out, context, &Listed { items, ty }, depth)?;
        }
        Items::Ints(ints) => write_integers(out, ints, ty)?,
        Items::Bools(bools) => write_truths(out, bools, ty)?,
        Items::Chars(chars) => write_characters(out, chars, ty)?,
    }
    Ok(())
}

// Writes a sequence that isn't packed, as a text if its type and its elements allow it.
#[cycle(whole)]
fn write_values<'a, P: Drop>(
    out: &mut Vec<u8>,
    context: &'a Context<P>,
    listed: &Listed<'a>,
    depth: u64,
) -> Result<(), AllocError>
    ensures { OnOk result ((brackets : Bool) → out.new.items ≡ out.old.items
        ++ text_of_value (datatypes context.now) brackets listed.now.ty (seq (trees_view listed.now.items.now))) }
{
    let items = listed.items;
    if is_text(items, &listed.ty) {
        write_quoted(out, items)?;
        return Ok(());
    }
    out.push(b'[')?;
    let ty = element_type(&listed.ty);
    write_elements(out, context, &Listed { items, ty }, depth)?;
    out.push(b']')?;
    Ok(())
}

// Writes the elements of a list.
#[cycle(whole)]
fn write_elements<'a, P: Drop>(
    out: &mut Vec<u8>,
    context: &'a Context<P>,
    listed: &Listed<'a>,
    depth: u64,
) -> Result<(), AllocError>
    ensures { OnOk result (out.new.items ≡ out.old.items
        ++ elements_text (datatypes context.now) listed.now.ty (trees_view listed.now.items.now)) }
{
    if let Some((value, items)) = listed.items.split_first() {
        let ty = listed.ty.again();
        write_whole(out, context, &Typed { value, ty }, true, depth)?;
        let ty = listed.ty.again();
        write_later_elements(out, context, &Listed { items, ty }, depth)?;
    }
    Ok(())
}

// Writes elements with a comma before each.
#[cycle(whole)]
fn write_later_elements<'a, P: Drop>(
    out: &mut Vec<u8>,
    context: &'a Context<P>,
    listed: &Listed<'a>,
    depth: u64,
) -> Result<(), AllocError>
    ensures { OnOk result (out.new.items ≡ out.old.items
        ++ later_elements_text (datatypes context.now) listed.now.ty (trees_view listed.now.items.now)) }
{
    for value in listed.items {
        write_bytes(out, b", ")?;
        let ty = listed.ty.again();
        write_whole(out, context, &Typed { value, ty }, true, depth)?;
    }
    Ok(())
}
