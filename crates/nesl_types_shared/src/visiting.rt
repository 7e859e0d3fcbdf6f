//! The variables of types.

ghost use Rattle.std.specs.Prelude.{◌≡◌, ◌++◌, ◌<◌, fold, length, IfOk, OnOk};
ghost use Rattle.nesl_types_shared.specs.Numbering.{variables as variables_of, with_number, first_occurrences};
ghost use Rattle.nesl_types_shared.specs.Types.{type_at};
ghost use Rattle.nesl_types_shared.specs.Visits.{parts, own_variables};

use crate::bank::Bank;
use crate::parts::Parts;
use crate::shape::Shape;
use indexmap::IndexSet;
use std::alloc::{AllocError, Global};

/// Notes a shape that is a variable, and puts the places of the parts of others on the stack, the first part last.
fn push_parts(
    stack: &mut Vec<usize>,
    seen: &mut IndexSet<u64>,
    shape: Shape,
) -> Result<(), AllocError>
    ensures stack { OnOk result (stack.new.items ≡ stack.old.items ++ parts shape) }
    ensures seen { OnOk result (seen.new.keys ≡ fold with_number seen.old.keys (own_variables shape)) }
{
    match shape {
        Shape::Var(variable) => {
            seen.insert(variable)?;
        }
        Shape::SeqOf(item) => stack.push(item)?,
        Shape::Both(first, second) => {
            stack.push(second)?;
            stack.push(first)?;
        }
        _ => {}
    }
    Ok(())
}

/// Notes the variables of the type at a place that aren't noted yet, in the order in which they first occur. No type is
/// looked at twice.
pub fn note_variables(
    alloc: Global,
    bank: &Bank,
    place: usize,
    seen: &mut IndexSet<u64>,
) -> Result<(), AllocError>
    requires { place < length bank.now }
    ensures { OnOk result (seen.new.keys ≡ fold with_number seen.old.keys (variables_of (type_at bank.now place))) }
{
    note_part_variables(alloc, &bank.parts(), place, seen)
}

/// Notes the variables of the type at a place among borrowed types, as `note_variables` does in a bank.
pub(crate) fn note_part_variables(
    alloc: Global,
    parts: &Parts<'_>,
    place: usize,
    seen: &mut IndexSet<u64>,
) -> Result<(), AllocError>
    requires { place < length parts.now }
    ensures { OnOk result (seen.new.keys ≡ fold with_number seen.old.keys (variables_of (type_at parts.now place))) }
{
    let mut visited = vec![in alloc; false; parts.len()]?;
    let mut stack = Vec::new(alloc);
    stack.push(place)?;
    while let Some(next) = stack.pop() {
        if visited[next] {
            continue;
        }
        visited[next] = true;
        push_parts(&mut stack, seen, parts.shape(next))?;
    }
    Ok(())
}

/// The variables of the type at a place, in the order in which they first occur.
pub fn variables(alloc: Global, bank: &Bank, place: usize) -> Result<IndexSet<u64>, AllocError>
    requires { place < length bank.now }
    ensures { IfOk result (λ seen. seen.keys ≡ first_occurrences (variables_of (type_at bank.now place))) }
{
    let mut seen = IndexSet::new(alloc);
    note_variables(alloc, bank, place, &mut seen)?;
    Ok(seen)
}
