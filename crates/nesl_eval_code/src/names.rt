//! Where a frame has the values of the names that its patterns bind: by an ordered map where the names are many.

ghost use Rattle.std.specs.Prelude.{◌≡◌, ◌++◌, Some, if◌then◌else◌, option_map, IfOk, OnOk};
ghost use Rattle.std.specs.Str.{bytes_eq};
ghost use Rattle.nesl_syntax_tree.specs.Views.{pattern_tree};
ghost use Rattle.nesl_eval_meaning.specs.Names.{Name};
ghost use Rattle.nesl_eval_code.specs.Means.{binds, steps_to};
ghost use Rattle.nesl_eval_code.specs.Noted.{noted_at};

use crate::code::Step;
use nesl_syntax_tree::tree::{Pattern, PatternNode};
use std::alloc::{AllocError, Global};
use std::collections::BTreeMap;

/// Where a frame has the value of a name: in its value at an index, and from there by these steps.
#[derive(Drop)]
pub(crate) struct NamePlace {
    pub index: usize,
    pub steps: Vec<Step>,
}

/// The names that patterns bind, in order, so that nobody can choose names that are slow to find.
pub(crate) type Names = BTreeMap<Vec<u8>, NamePlace>;

/// Notes a name, in place of an earlier one that is the same.
fn note_name(
    alloc: Global,
    names: &mut Names,
    name: &[u8],
    index: usize,
    path: &[Step],
) -> Result<(), AllocError>
    ensures { OnOk result ((x : Name) → noted_at names.new.entries x
        ≡ (if bytes_eq x name.now then Some (index, path.now) else noted_at names.old.entries x)) }
{
    let key = Vec::from_slice(alloc, name)?;
    let steps = Vec::from_slice(alloc, path)?;
    names.insert(key, NamePlace { index, steps })?;
    Ok(())
}

/// Notes the names of a part of the pattern at an index of the frame, to which a path leads from there. A name on the
/// right hides one on the left. It recurs over the parts.
fn note_part(
    alloc: Global,
    names: &mut Names,
    pattern: &Pattern,
    index: usize,
    path: &mut Vec<Step>,
) -> Result<(), AllocError>
    ensures path { OnOk result (path.new.items ≡ path.old.items) }
    ensures noted { OnOk result ((x : Name) → noted_at names.new.entries x
        ≡ (if binds x (pattern_tree pattern.now)
        then Some (index, path.old.items ++ steps_to x (pattern_tree pattern.now)) else noted_at names.old.entries x)) }
{
    match &pattern.node {
        PatternNode::Name(name) => note_name(alloc, names, name.as_slice(), index, path.as_slice()),
        PatternNode::Pair { left, right } => {
            path.push(Step::Left)?;
            note_part(alloc, names, left, index, path)?;
            path.pop();
            path.push(Step::Right)?;
            note_part(alloc, names, right, index, path)?;
            path.pop();
            Ok(())
        }
        PatternNode::Record { part, .. } => {
            path.push(Step::Inside)?;
            note_part(alloc, names, part, index, path)?;
            path.pop();
            Ok(())
        }
    }
}

/// Notes the names of the pattern at an index of the frame.
pub(crate) fn note_names(
    alloc: Global,
    names: &mut Names,
    pattern: &Pattern,
    index: usize,
) -> Result<(), AllocError>
    ensures { OnOk result ((x : Name) → noted_at names.new.entries x
        ≡ (if binds x (pattern_tree pattern.now) then Some (index, steps_to x (pattern_tree pattern.now))
        else noted_at names.old.entries x)) }
{
    let mut path = Vec::new(alloc);
    note_part(alloc, names, pattern, index, &mut path)
}

/// Where a noted name is.
pub(crate) fn noted_place(
    alloc: Global,
    names: &Names,
    name: &[u8],
) -> Result<Option<NamePlace>, AllocError>
    ensures { IfOk result (λ o. noted_at names.now.entries name.now ≡ option_map (λ p. (p.index, p.steps.items)) o) }
{
    match names.get(name) {
        Some(place) => {
            let steps = Vec::from_slice(alloc, place.steps.as_slice())?;
            Ok(Some(NamePlace {
                index: place.index,
                steps,
            }))
        }
        None => Ok(None),
    }
}
