//! The texts of values.

ghost use Rattle.std.specs.Prelude.{◌≡◌, ◌+◌, ◌*◌, ◌-◌, ◌<◌, ◌∷◌, [], ◌++◌, ◌==◌, ◌&&◌, not, ℕ, Bool, true, false};
ghost use Rattle.std.specs.Prelude.{IfOk, OnOk, MatchOption, codes, map, unwrap_or};
ghost use Rattle.std.specs.List.{list_all};
ghost use Rattle.nesl_values.specs.Tree.{int, boolean, character, seq, sequence, trees_of, size, sizes};
ghost use Rattle.nesl_values.specs.Parts.{list_of};
ghost use Rattle.nesl_values.specs.View.{tree_of, trees_view, item_trees};
ghost use Rattle.nesl_types.specs.Names.{datatype_at};
ghost use Rattle.nesl_types.specs.Texts.{name_at};
ghost use Rattle.nesl_reply.specs.Values.{DatatypesByTag, datatypes, value_text as text_of_value, is_quotable, code_of};
ghost use Rattle.nesl_reply.specs.Values.{quoted, is_text_type, elements_text, later_elements_text, bracketed};
ghost use Rattle.nesl_reply.specs.Values.{left_type};
ghost use Rattle.nesl_reply.specs.Values.{right_type, element_type, held_by};
ghost use Rattle.nesl_reply.specs.Tasks.{task_text, tasks_text, task_work, tasks_work, IsNext, empty_text, leaves_text};
ghost use Rattle.nesl_reply.specs.Tasks.{list_text};

use crate::leaf::{Leaf, is_printable, write_character, write_other_leaves, write_truth};
use crate::whole::write_value;
use crate::writing::{write_bytes, write_integer};
use nesl_types::{Context, Kind, Part, Top, Ty};
use nesl_values::{Items, Shape, Value};
use std::alloc::{AllocError, Global};

/// The number of tasks that there is room for at first.
const TASKS: usize = 8;

/// A part of the text that is still to be written.
#[derive(Drop)]
pub enum Task<'a> {
    /// A value of this type; the flag asks for brackets around a pair.
    Value(&'a Value, Part<'a>, bool),
    /// Elements of this type, each with a comma before it.
    Others(&'a [Value], Part<'a>),
    Bytes(&'static [u8]),
}

/// The text of a value of a type. The context has the names of the datatypes, and what their records hold.
pub fn value_text<P: Drop>(
    alloc: Global,
    value: &Value,
    ty: &Ty,
    context: &Context<P>,
) -> Result<Vec<u8>, AllocError>
    ensures { IfOk result (λ text. text.items ≡ text_of_value (datatypes context.now) true ty.now (tree_of value.now)) }
{
    let mut out = Vec::new(alloc);
    write_value(&mut out, value, ty, context)?;
    Ok(out)
}

/// Writes a value of a type, with brackets around a pair if `brackets` is true. What is still to be written is kept in
/// a list, so that a deep value needs no deep recursion.
pub(crate) fn write_by_tasks<'a, P: Drop>(
    out: &mut Vec<u8>,
    context: &'a Context<P>,
    value: &'a Value,
    ty: &Part<'a>,
    brackets: bool,
) -> Result<(), AllocError>
    ensures { OnOk result (out.new.items ≡ out.old.items
        ++ text_of_value (datatypes context.now) brackets ty.now (tree_of value.now)) }
{
    let mut tasks = Vec::with_capacity(*out.allocator(), TASKS)?;
    write_front(out, &mut tasks, context, value, ty, brackets)?;
    while let Some(task) = next_task(&mut tasks) {
        write_task(out, &mut tasks, context, task)?;
    }
    Ok(())
}

// Takes the next task.
#[tactic(auto, using(crate::proofs::Lists::tasks_text_push, crate::proofs::Lists::tasks_work_push))]
fn next_task<'a>(tasks: &mut Vec<Task<'a>>) -> Option<Task<'a>>
    ensures { MatchOption result
        ((known : DatatypesByTag) → tasks_text known tasks.old.items ≡ [])
        (λ task. IsNext task tasks.old.items tasks.new.items) }
{
    tasks.pop()
}

// Puts a task before all others.
#[tactic(auto, using(crate::proofs::Lists::tasks_text_push, crate::proofs::Lists::tasks_work_push))]
fn plan<'a>(tasks: &mut Vec<Task<'a>>, task: Task<'a>) -> Result<(), AllocError>
    ensures { OnOk result (IsNext task.entry tasks.new.items tasks.old.items) }
{
    tasks.push(task)?;
    Ok(())
}

// Writes the first bytes of a task, and adds tasks for the rest.
fn write_task<'a, P: Drop>(
    out: &mut Vec<u8>,
    tasks: &mut Vec<Task<'a>>,
    context: &'a Context<P>,
    task: Task<'a>,
) -> Result<(), AllocError>
    ensures text { OnOk result (out.new.items ++ tasks_text (datatypes context.now) tasks.new.items
        ≡ out.old.items ++ (task_text (datatypes context.now) task.entry
        ++ tasks_text (datatypes context.now) tasks.old.items)) }
    ensures less_work { OnOk result (tasks_work tasks.new.items < task_work task.entry + tasks_work tasks.old.items) }
{
    match task {
        Task::Value(value, ty, brackets) => write_front(out, tasks, context, value, &ty, brackets),
        Task::Others(items, ty) => write_others(out, tasks, items, &ty),
        Task::Bytes(bytes) => write_bytes(out, bytes),
    }
}

// Writes the first bytes of a value, and adds tasks for the rest.
fn write_front<'a, P: Drop>(
    out: &mut Vec<u8>,
    tasks: &mut Vec<Task<'a>>,
    context: &'a Context<P>,
    value: &'a Value,
    ty: &Part<'a>,
    brackets: bool,
) -> Result<(), AllocError>
    ensures text { OnOk result (out.new.items ++ tasks_text (datatypes context.now) tasks.new.items
        ≡ out.old.items ++ (text_of_value (datatypes context.now) brackets ty.now (tree_of value.now)
        ++ tasks_text (datatypes context.now) tasks.old.items)) }
    ensures less_work { OnOk result (tasks_work tasks.new.items
        < 4 * size (tree_of value.now) - 1 + tasks_work tasks.old.items) }
{
    match value.shape() {
        Shape::Int(n) => write_integer(out, n),
        Shape::Bool(b) => write_truth(out, b),
        Shape::Char(c) => write_character(out, c),
        Shape::Pair(left, right) => write_pair(out, tasks, left, right, ty, brackets),
        Shape::Tagged(tag, held) => write_record(out, tasks, context, tag, held, ty),
        Shape::Sequence(_) => {
            write_items(out, tasks, value.items(), ty)?;
            Ok(())
        }
    }
}

// Writes the first bytes of a sequence, or all of it if it is packed.
fn write_items<'a>(
    out: &mut Vec<u8>,
    tasks: &mut Vec<Task<'a>>,
    items: Items<'a>,
    ty: &Part<'a>,
) -> Result<(), AllocError>
    ensures text { OnOk result ((known : DatatypesByTag) (brackets : Bool)
        → out.new.items ++ tasks_text known tasks.new.items
        ≡ out.old.items ++ (text_of_value known brackets ty.now (sequence (item_trees items.entry))
        ++ tasks_text known tasks.old.items)) }
    ensures less_work { OnOk result (tasks_work tasks.new.items
        < 4 * sizes (trees_of (item_trees items.entry)) + 3 + tasks_work tasks.old.items) }
{
    match items {
        Items::Values(values) => {
            write_sequence(out, tasks, values, ty)?;
            Ok(())
        }
        Items::Ints(ints) => {
            write_integers(out, ints, ty)?;
            Ok(())
        }
        Items::Bools(bools) => {
            write_truths(out, bools, ty)?;
            Ok(())
        }
        Items::Chars(chars) => {
            write_characters(out, chars, ty)?;
            Ok(())
        }
    }
}

fn write_pair<'a>(
    out: &mut Vec<u8>,
    tasks: &mut Vec<Task<'a>>,
    left: &'a Value,
    right: &'a Value,
    ty: &Part<'a>,
    brackets: bool,
) -> Result<(), AllocError>
    ensures text { OnOk result ((known : DatatypesByTag) → out.new.items ++ tasks_text known tasks.new.items
        ≡ out.old.items ++ (bracketed brackets
        (text_of_value known true (left_type ty.now) (tree_of left.now) ++ codes ", "
        ++ text_of_value known false (right_type ty.now) (tree_of right.now)) ++ tasks_text known tasks.old.items)) }
    ensures less_work { OnOk result (tasks_work tasks.new.items
        < 4 * (size (tree_of left.now) + size (tree_of right.now)) + 3 + tasks_work tasks.old.items) }
{
    if brackets {
        write_bytes(out, b"(")?;
        plan(tasks, Task::Bytes(b")"))?;
    }
    plan(tasks, Task::Value(right, right_type(ty), false))?;
    plan(tasks, Task::Bytes(b", "))?;
    plan(tasks, Task::Value(left, left_type(ty), true))
}

fn write_record<'a, P: Drop>(
    out: &mut Vec<u8>,
    tasks: &mut Vec<Task<'a>>,
    context: &'a Context<P>,
    tag: u64,
    held: &'a Value,
    ty: &Part<'a>,
) -> Result<(), AllocError>
    ensures text { OnOk result (out.new.items ++ tasks_text (datatypes context.now) tasks.new.items
        ≡ out.old.items ++ (name_at context.now tag
        ++ (codes "(" ++ text_of_value (datatypes context.now) false
        (unwrap_or (held_by (datatype_at context.now tag)) ty.now) (tree_of held.now) ++ codes ")")
        ++ tasks_text (datatypes context.now) tasks.old.items)) }
    ensures less_work { OnOk result (tasks_work tasks.new.items
        < 4 * size (tree_of held.now) + 3 + tasks_work tasks.old.items) }
{
    if let Some((name, _, _)) = context.datatype(tag) {
        write_bytes(out, name)?;
    }
    write_bytes(out, b"(")?;
    plan(tasks, Task::Bytes(b")"))?;
    plan(tasks, Task::Value(held, held_type(context, tag, ty), false))
}

fn write_sequence<'a>(
    out: &mut Vec<u8>,
    tasks: &mut Vec<Task<'a>>,
    items: &'a [Value],
    ty: &Part<'a>,
) -> Result<(), AllocError>
    ensures text { OnOk result ((known : DatatypesByTag) → out.new.items ++ tasks_text known tasks.new.items
        ≡ out.old.items ++ (text_of_value known true ty.now (seq (trees_view items.now))
        ++ tasks_text known tasks.old.items)) }
    ensures less_work { OnOk result (tasks_work tasks.new.items
        < 4 * sizes (trees_view items.now) + 3 + tasks_work tasks.old.items) }
{
    if is_text(items, ty) {
        return write_quoted(out, items);
    }
    write_list(out, tasks, items, &element_type(ty))
}

// Writes a sequence as a list.
fn write_list<'a>(
    out: &mut Vec<u8>,
    tasks: &mut Vec<Task<'a>>,
    items: &'a [Value],
    ty: &Part<'a>,
) -> Result<(), AllocError>
    ensures text { OnOk result ((known : DatatypesByTag) → out.new.items ++ tasks_text known tasks.new.items
        ≡ out.old.items ++ ((codes "[" ++ elements_text known ty.now (trees_view items.now) ++ codes "]")
        ++ tasks_text known tasks.old.items)) }
    ensures less_work { OnOk result (tasks_work tasks.new.items
        < 4 * sizes (trees_view items.now) + 3 + tasks_work tasks.old.items) }
{
    write_bytes(out, b"[")?;
    plan(tasks, Task::Bytes(b"]"))?;
    match items.split_first() {
        None => Ok(()),
        Some((first, others)) => {
            plan(tasks, Task::Others(others, ty.again()))?;
            plan(tasks, Task::Value(first, ty.again(), true))
        }
    }
}

fn write_others<'a>(
    out: &mut Vec<u8>,
    tasks: &mut Vec<Task<'a>>,
    items: &'a [Value],
    ty: &Part<'a>,
) -> Result<(), AllocError>
    ensures text { OnOk result ((known : DatatypesByTag) → out.new.items ++ tasks_text known tasks.new.items
        ≡ out.old.items
        ++ (later_elements_text known ty.now (trees_view items.now) ++ tasks_text known tasks.old.items)) }
    ensures less_work { OnOk result (tasks_work tasks.new.items
        < 4 * sizes (trees_view items.now) + 1 + tasks_work tasks.old.items) }
{
    match items.split_first() {
        None => Ok(()),
        Some((first, others)) => {
            write_bytes(out, b", ")?;
            plan(tasks, Task::Others(others, ty.again()))?;
            plan(tasks, Task::Value(first, ty.again(), true))
        }
    }
}

// Writes an empty sequence: `""` if its type is that of a text, else `[]`.
fn write_empty(out: &mut Vec<u8>, ty: &Part<'_>) -> Result<(), AllocError>
    ensures { OnOk result (out.new.items ≡ out.old.items ++ empty_text ty.now) }
{
    if is_text_type(ty) {
        return write_bytes(out, b"\"\"");
    }
    write_bytes(out, b"[]")
}

// Writes a list of leaves.
fn write_leaves<L: Leaf>(out: &mut Vec<u8>, items: &[L], ty: &Part<'_>) -> Result<(), AllocError>
    ensures { OnOk result (out.new.items ≡ out.old.items ++ list_text ty.now (map L.leaf items.now)) }
{
    match items.split_first() {
        None => write_empty(out, ty),
        Some((first, others)) => write_first(out, *first, others),
    }
}

// Writes a list of leaves, which has at least one.
fn write_first<L: Leaf>(out: &mut Vec<u8>, first: L, others: &[L]) -> Result<(), AllocError>
    ensures { OnOk result (out.new.items ≡ out.old.items ++ leaves_text (L.leaf first) (map L.leaf others.now)) }
{
    write_bytes(out, b"[")?;
    first.write(out)?;
    write_other_leaves(out, others)?;
    write_bytes(out, b"]")
}

// Writes a packed sequence of numbers.
pub(crate) fn write_integers(
    out: &mut Vec<u8>,
    items: &[i64],
    ty: &Part<'_>,
) -> Result<(), AllocError>
    ensures { OnOk result ((known : DatatypesByTag) (brackets : Bool)
        → out.new.items ≡ out.old.items ++ text_of_value known brackets ty.now (seq (trees_of (map int items.now)))) }
{
    write_leaves(out, items, ty)?;
    Ok(())
}

// Writes a packed sequence of truth values.
pub(crate) fn write_truths(
    out: &mut Vec<u8>,
    items: &[bool],
    ty: &Part<'_>,
) -> Result<(), AllocError>
    ensures { OnOk result ((known : DatatypesByTag) (brackets : Bool)
        → out.new.items ≡ out.old.items ++ text_of_value known brackets ty.now
        (seq (trees_of (map boolean items.now)))) }
{
    write_leaves(out, items, ty)?;
    Ok(())
}

// Writes a packed sequence of characters, as a text if its type and its bytes allow it.
pub(crate) fn write_characters(
    out: &mut Vec<u8>,
    bytes: &[u8],
    ty: &Part<'_>,
) -> Result<(), AllocError>
    ensures { OnOk result ((known : DatatypesByTag) (brackets : Bool)
        → out.new.items ≡ out.old.items ++ text_of_value known brackets ty.now
        (seq (trees_of (map character bytes.now)))) }
{
    if is_packed_text(bytes, ty) {
        write_text(out, bytes)?;
        return Ok(());
    }
    write_leaves(out, bytes, ty)?;
    Ok(())
}

// Writes bytes between double quotes.
#[tactic(auto, using(crate::proofs::Lists::between))]
fn write_text(out: &mut Vec<u8>, bytes: &[u8]) -> Result<(), AllocError>
    ensures { OnOk result (out.new.items ≡ out.old.items ++ (codes "\"" ++ bytes.now ++ codes "\"")) }
{
    write_bytes(out, b"\"")?;
    write_bytes(out, bytes)?;
    write_bytes(out, b"\"")?;
    Ok(())
}

// Writes characters that are stored as separate values, between double quotes.
pub(crate) fn write_quoted(out: &mut Vec<u8>, items: &[Value]) -> Result<(), AllocError>
    ensures { OnOk result (out.new.items ≡ out.old.items ++ quoted (list_of (trees_view items.now))) }
{
    write_bytes(out, b"\"")?;
    write_codes(out, items)?;
    write_bytes(out, b"\"")?;
    Ok(())
}

fn write_codes(out: &mut Vec<u8>, items: &[Value]) -> Result<(), AllocError>
    ensures { OnOk result (out.new.items ≡ out.old.items ++ map code_of (map tree_of items.now)) }
{
    for item in items {
        out.push(code_of(item))?;
    }
    Ok(())
}

// Whether the sequence is written as a text.
pub(crate) fn is_text(items: &[Value], ty: &Part<'_>) -> bool
    ensures { result ≡ (is_text_type ty.now && list_all is_quotable (list_of (trees_view items.now))) }
{
    is_text_type(ty) && can_be_quoted(items)
}

// Whether a sequence of packed characters is written as a text.
#[tactic(auto, using(crate::proofs::Lists::all_of))]
fn is_packed_text(bytes: &[u8], ty: &Part<'_>) -> bool
    ensures { result ≡ (is_text_type ty.now && list_all is_quotable (list_of (trees_of (map character bytes.now)))) }
{
    is_text_type(ty) && all_quotable(bytes)
}

// Whether each of these bytes can stand between double quotes.
fn all_quotable(bytes: &[u8]) -> bool
    ensures { result ≡ list_all (λ c. is_quotable (character c)) bytes.now }
{
    bytes.iter().all(|c| is_text_byte(*c))
}

// Whether each of these values is a character that can stand between double quotes.
fn can_be_quoted(items: &[Value]) -> bool
    ensures { result ≡ list_all (λ v. is_quotable (tree_of v)) items.now }
{
    items.iter().all(is_quotable)
}

#[tactic(auto, using(crate::proofs::Views::quotable, crate::proofs::Views::not_quotable))]
fn is_quotable(item: &Value) -> bool
    ensures { result ≡ is_quotable (tree_of item.now) }
{
    match item.as_char() {
        Some(c) => is_text_byte(c),
        None => false,
    }
}

fn is_text_byte(c: u8) -> bool
    ensures { result ≡ is_quotable (character c) }
{
    is_printable(c) && c != b'"'
}

// The code of a character, or 0 for any other value.
#[tactic(auto, using(crate::proofs::Views::code, crate::proofs::Views::no_code))]
fn code_of(item: &Value) -> u8
    ensures { result ≡ code_of (tree_of item.now) }
{
    match item.as_char() {
        Some(c) => c,
        None => 0,
    }
}

fn is_text_type(ty: &Part<'_>) -> bool
    ensures { result ≡ is_text_type ty.now }
{
    match ty.kind() {
        Kind::SeqOf(item) => matches!(item.kind(), Kind::Char),
        _ => false,
    }
}

pub(crate) fn left_type<'a>(ty: &Part<'a>) -> Part<'a>
    ensures { result ≡ left_type ty.now }
{
    match ty.kind() {
        Kind::Both(left, _) => left,
        _ => ty.again(),
    }
}

pub(crate) fn right_type<'a>(ty: &Part<'a>) -> Part<'a>
    ensures { result ≡ right_type ty.now }
{
    match ty.kind() {
        Kind::Both(_, right) => right,
        _ => ty.again(),
    }
}

pub(crate) fn element_type<'a>(ty: &Part<'a>) -> Part<'a>
    ensures { result ≡ element_type ty.now }
{
    match ty.kind() {
        Kind::SeqOf(item) => item,
        _ => ty.again(),
    }
}

// The type of what a datatype's records hold, or `ty` if no datatype has the tag.
pub(crate) fn held_type<'a, P: Drop>(context: &'a Context<P>, tag: u64, ty: &Part<'a>) -> Part<'a>
    ensures { result ≡ unwrap_or (held_by (datatype_at context.now tag)) ty.now }
{
    match context.datatype(tag) {
        Some((_, Top::Datatype(_, held), _)) => held.whole(),
        _ => ty.again(),
    }
}
