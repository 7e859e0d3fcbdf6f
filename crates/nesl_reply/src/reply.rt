//! Replies: the text of each is one line, with its line end.

ghost use Rattle.std.specs.Prelude.{◌≡◌, ◌++◌, ◌<◌, ◌==◌, if◌then◌else◌, length, slice_get, Some, true, IfOk, OnOk};
ghost use Rattle.std.specs.Prelude.{codes, decimal, map};
ghost use Rattle.nesl_reply.specs.Faults.{fault_text};
ghost use Rattle.nesl_reply.specs.declared.fault.Fault.TheVariants.{Memory};
ghost use Rattle.nesl_reply.specs.Replies.{reply_line, budget_text, reply_text as text_of_reply, cost_text, used_text};
ghost use Rattle.nesl_reply.specs.Replies.{names_text};

use crate::fault::{Fault, write_fault};
use crate::whole::write_value;
use crate::writing::{write_bytes, write_number};
use nesl_scalars::Cost;
use nesl_types::{Context, Scheme, Ty, write_scheme, write_type};
use nesl_values::Value;
use std::alloc::{AllocError, Global};

/// The reply `fault memory`. It is a fixed text, so that it takes no memory.
pub fn no_memory() -> &'static [u8]
    ensures { result.now ≡ fault_text Memory ++ codes "\n" }
{
    b"fault memory (work 0)\n"
}

/// The capacity, in bytes, that the text of a reply starts with.
const ROOM: usize = 128;

/// How much of a limit is used.
#[derive(Clone, Copy, PartialEq, Eq, Debug)]
pub struct Used {
    pub used: u64,
    pub limit: u64,
}

/// What is replied to a line.
#[derive(Clone, Copy)]
pub enum Reply<'a> {
    /// A variable was bound: its name, its value, its type, and what the evaluation cost.
    Bound(&'a [u8], &'a Value, &'a Ty, Cost),
    /// A function was defined.
    FunTold(&'a [u8], &'a Scheme),
    /// A datatype was defined: its name, and the type that its records hold.
    DatatypeTold(&'a [u8], &'a Ty),
    /// All names, in order of first definition.
    Names,
    /// The work that is left, and how much is used of each limit: elements, lines, and bytes of lines.
    Budget(u64, Used, Used, Used),
    /// The type of an expression.
    Shown(&'a Ty),
    /// The line has no tokens.
    Blank,
    /// The line is part of a form that isn't complete yet.
    More,
    /// The session was reset, after it had stored this number of lines.
    Cleared(u64),
    Refused(Fault),
}

/// The text of a reply, with its line end. The context holds the names of the session.
pub fn reply_text<P: Drop>(
    alloc: Global,
    reply: &Reply<'_>,
    context: &Context<P>,
) -> Result<Vec<u8>, AllocError>
    ensures { IfOk result (λ text. text.items ≡ text_of_reply context.now reply.now) }
{
    let mut out = Vec::with_capacity(alloc, ROOM)?;
    write_reply(&mut out, *reply, context)?;
    write_bytes(&mut out, b"\n")?;
    Ok(out)
}

fn write_reply<P: Drop>(
    out: &mut Vec<u8>,
    reply: Reply<'_>,
    context: &Context<P>,
) -> Result<(), AllocError>
    ensures { OnOk result (out.new.items ≡ out.old.items ++ reply_line context.now reply.entry) }
{
    match reply {
        Reply::Bound(name, value, ty, cost) => {
            write_bytes(out, name)?;
            write_bytes(out, b" = ")?;
            write_value(out, value, ty, context)?;
            write_bytes(out, b" : ")?;
            write_type(out, ty, context)?;
            write_cost(out, cost)
        }
        Reply::FunTold(name, scheme) => {
            write_bytes(out, name)?;
            write_bytes(out, b" : ")?;
            write_scheme(out, scheme, context)
        }
        Reply::DatatypeTold(name, ty) => {
            write_bytes(out, name)?;
            write_bytes(out, b" : ")?;
            write_type(out, ty, context)?;
            write_bytes(out, b" -> ")?;
            write_bytes(out, name)
        }
        Reply::Names => {
            write_bytes(out, b"names:")?;
            write_names(out, context)
        }
        Reply::Budget(work, elements, lines, bytes) => write_budget(
            out, work, elements, lines, bytes,
        ),
        Reply::Shown(ty) => {
            write_bytes(out, b"type: ")?;
            write_type(out, ty, context)
        }
        Reply::Blank => write_bytes(out, b"ok"),
        Reply::More => write_bytes(out, b"more"),
        Reply::Cleared(lines) => { write_counted(out, b"reset: lines ", lines) }
        Reply::Refused(fault) => write_fault(out, fault),
    }
}

// Writes ` (work W, depth D)`.
fn write_cost(out: &mut Vec<u8>, cost: Cost) -> Result<(), AllocError>
    ensures { OnOk result (out.new.items ≡ out.old.items ++ cost_text cost) }
{
    write_bytes(out, b" (work ")?;
    write_number(out, cost.work)?;
    write_bytes(out, b", depth ")?;
    write_number(out, cost.depth)?;
    write_bytes(out, b")")
}

// Writes a word and a number.
fn write_counted(out: &mut Vec<u8>, word: &[u8], number: u64) -> Result<(), AllocError>
    ensures { OnOk result (out.new.items ≡ out.old.items ++ (word.now ++ decimal number)) }
{
    write_bytes(out, word)?;
    write_number(out, number)
}

// Writes a word and ` N of M`.
#[tactic(auto, unfolding(crate::specs::Replies::used_text))]
fn write_used(out: &mut Vec<u8>, word: &[u8], used: Used) -> Result<(), AllocError>
    ensures { OnOk result (out.new.items ≡ out.old.items ++ (word.now ++ used_text used)) }
{
    write_bytes(out, word)?;
    write_bytes(out, b" ")?;
    write_number(out, used.used)?;
    write_bytes(out, b" of ")?;
    write_number(out, used.limit)
}

fn write_budget(
    out: &mut Vec<u8>,
    work: u64,
    elements: Used,
    lines: Used,
    bytes: Used,
) -> Result<(), AllocError>
    ensures { OnOk result (out.new.items ≡ out.old.items ++ budget_text work elements lines bytes) }
{
    write_counted(out, b"budget: work ", work)?;
    write_used(out, b", elements", elements)?;
    write_used(out, b", lines", lines)?;
    write_used(out, b", bytes", bytes)?;
    Ok(())
}

// Writes the names: a space before the first, and `, ` before each other.
fn write_names<P: Drop>(out: &mut Vec<u8>, context: &Context<P>) -> Result<(), AllocError>
    ensures { OnOk result (out.new.items ≡ out.old.items ++ names_text (map (λ b. b.0) context.now)) }
{
    for place in 0..context.len() {
        write_bytes(out, separator(place))?;
        write_bytes(out, name_at(context, place))?;
    }
    Ok(())
}

// The separator before the name at a place.
fn separator(place: usize) -> &'static [u8]
    ensures { result.now ≡ (if place == 0 then codes " " else codes ", ") }
{
    if place == 0 { b" " } else { b", " }
}

// The name at a place in the order of first definition, counted from 0.
fn name_at<P: Drop>(context: &Context<P>, place: usize) -> &[u8]
    requires { place < length context.now }
    ensures { Some result.now ≡ slice_get (map (λ b. b.0) context.now) place }
{
    match context.at(place) {
        Some((name, _, _)) => name,
        None => unreachable!(),
    }
}
