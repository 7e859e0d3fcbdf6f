//! Frames round an expression, with the names that their patterns bind.

ghost use Rattle.std.specs.Prelude.{◌≡◌, ◌<◌, ◌≤◌, ◌∷◌, ◌++◌, [], IfOk, IfSome, OnOk, length, suc};
ghost use Rattle.std.specs.Option.{ForSome};
ghost use Rattle.nesl_syntax_tree.specs.Views.{pattern_tree, binders_in};
ghost use Rattle.nesl_eval_code.specs.Means.{binds, steps_to, last_binding, patterns};
ghost use Rattle.nesl_eval_code.specs.Frame.{FindsIn, AreNoted, patterns_before};

use crate::code::Step;
use crate::names::{NamePlace, Names, note_names, noted_place};
use nesl_syntax_tree::tree::{Binding, Pattern, PatternNode};
use std::alloc::{AllocError, Global};
use std::collections::BTreeMap;

/// How many names of a frame are sought one by one. Where it has more, all are noted in a map.
const FEW: u64 = 8;

/// The parameter of a function, with its names where they are many.
#[derive(Drop)]
pub(crate) struct Parameter<'a> {
    pub pattern: &'a Pattern,
    names: Option<Names>,
    ghost noted: { ForSome names (λ n. AreNoted (pattern_tree pattern.now ∷ []) n.entries) },
}

/// The bindings of a `let` so far or the binders of an apply-to-each, with their names where they are many.
#[derive(Drop)]
pub(crate) struct Frame<'a> {
    pub bound: &'a [Binding],
    /// How many of the bindings are seen.
    pub seen: usize,
    names: Option<Names>,
    // How many names more are sought one by one.
    room: u64,
    ghost within: { seen ≤ length bound.now },
    ghost noted: { ForSome names (λ n. AreNoted (patterns_before bound.now seen) n.entries) },
}

/// What is left of `room` after the names of a pattern, or `None` where they are more. It looks at no more than those.
fn room_after(pattern: &Pattern, room: u64) -> Option<u64> {
    match &pattern.node {
        PatternNode::Name(_) => room.checked_sub(1),
        PatternNode::Pair { left, right } => room_after(right, room_after(left, room)?),
        PatternNode::Record { part, .. } => room_after(part, room),
    }
}

/// Whether the pattern binds the name. Most patterns are names, which are compared without a call.
#[inline(always)]
fn binds(pattern: &Pattern, name: &[u8]) -> bool
    ensures { result ≡ binds name.now (pattern_tree pattern.now) }
{
    match &pattern.node {
        PatternNode::Name(own) => name == own.as_slice(),
        _ => part_binds(pattern, name),
    }
}

/// Whether the pattern binds the name. It recurs over the parts.
fn part_binds(pattern: &Pattern, name: &[u8]) -> bool
    ensures { result ≡ binds name.now (pattern_tree pattern.now) }
{
    match &pattern.node {
        PatternNode::Name(own) => name == own.as_slice(),
        PatternNode::Pair { left, right } => part_binds(right, name) || part_binds(left, name),
        PatternNode::Record { part, .. } => part_binds(part, name),
    }
}

/// Most names are at most this number of steps from the value of their pattern.
const FEW_STEPS: usize = 8;

/// The steps from the value of a pattern to what the name means.
fn steps_in(alloc: Global, pattern: &Pattern, name: &[u8]) -> Result<Vec<Step>, AllocError>
    ensures { IfOk result (λ r. r.items ≡ steps_to name.now (pattern_tree pattern.now)) }
{
    match &pattern.node {
        PatternNode::Name(_) => Ok(Vec::new(alloc)),
        _ => {
            let mut steps = Vec::with_capacity(alloc, FEW_STEPS)?;
            add_steps(&mut steps, pattern, name)?;
            Ok(steps)
        }
    }
}

/// Adds the steps to what the name means. A name on the right hides one on the left.
fn add_steps(steps: &mut Vec<Step>, pattern: &Pattern, name: &[u8]) -> Result<(), AllocError>
    ensures { OnOk result (steps.new.items ≡ steps.old.items ++ steps_to name.now (pattern_tree pattern.now)) }
{
    match &pattern.node {
        PatternNode::Name(_) => Ok(()),
        PatternNode::Pair { left, right } => {
            if binds(right, name) {
                steps.push(Step::Right)?;
                add_steps(steps, right, name)
            } else {
                steps.push(Step::Left)?;
                add_steps(steps, left, name)
            }
        }
        PatternNode::Record { part, .. } => {
            steps.push(Step::Inside)?;
            add_steps(steps, part, name)
        }
    }
}

/// The last of the bindings that binds the name.
#[inline(always)]
fn last_binding(bindings: &[Binding], name: &[u8]) -> Option<usize>
    ensures last { result ≡ last_binding name.now (patterns (binders_in bindings.now)) }
    ensures within { IfSome result (λ i. i < length bindings.now) }
{
    let mut last = None;
    for (index, binding) in bindings.iter().enumerate() {
        if binds(&binding.pattern, name) {
            last = Some(index);
        }
    }
    last
}

/// Where the value is in a frame of bindings, sought one by one.
#[inline(always)]
fn place_in_bindings(
    alloc: Global,
    bindings: &[Binding],
    name: &[u8],
) -> Result<Option<NamePlace>, AllocError>
    ensures { IfOk result (FindsIn (patterns (binders_in bindings.now)) name.now) }
{
    match last_binding(bindings, name) {
        Some(index) => {
            let steps = steps_in(alloc, &bindings[index].pattern, name)?;
            Ok(Some(NamePlace { index, steps }))
        }
        None => Ok(None),
    }
}

impl<'a> Parameter<'a> {
    /// The parameter of a function.
    pub fn new(alloc: Global, pattern: &'a Pattern) -> Result<Parameter<'a>, AllocError>
        ensures { IfOk result (λ p. p.pattern.now ≡ pattern.now) }
    {
        if room_after(pattern, FEW).is_some() {
            return Ok(Parameter {
                pattern,
                names: None,
            });
        }
        let mut names = BTreeMap::new(alloc);
        note_names(alloc, &mut names, pattern, 0)?;
        Ok(Parameter {
            pattern,
            names: Some(names),
        })
    }

    /// Where the value of a name is, if the parameter binds it.
    pub fn find(&self, alloc: Global, name: &[u8]) -> Result<Option<NamePlace>, AllocError>
        ensures { IfOk result (FindsIn (pattern_tree self.now.pattern.now ∷ []) name.now) }
    {
        if let Some(names) = &self.names {
            return noted_place(alloc, names, name);
        }
        if !binds(self.pattern, name) {
            return Ok(None);
        }
        let steps = steps_in(alloc, self.pattern, name)?;
        Ok(Some(NamePlace { index: 0, steps }))
    }
}

/// Notes the names of the first bindings.
fn note_bindings(alloc: Global, bound: &[Binding]) -> Result<Names, AllocError>
    ensures { IfOk result (λ n. AreNoted (patterns (binders_in bound.now)) n.entries) }
{
    let mut names = BTreeMap::new(alloc);
    for (index, binding) in bound.iter().enumerate() {
        note_names(alloc, &mut names, &binding.pattern, index)?;
    }
    Ok(names)
}

impl<'a> Frame<'a> {
    /// The frame of these bindings, of which none is seen yet.
    pub fn new(bound: &'a [Binding]) -> Frame<'a>
        ensures bound { result.bound.now ≡ bound.now }
        ensures seen { result.seen ≡ 0 }
    {
        Frame {
            bound,
            seen: 0,
            names: None,
            room: FEW,
        }
    }

    /// The frame of these binders, all of which are seen.
    pub fn of(alloc: Global, bound: &'a [Binding]) -> Result<Frame<'a>, AllocError>
        ensures bound { IfOk result (λ f. f.bound.now ≡ bound.now) }
        ensures seen { IfOk result (λ f. f.seen ≡ length bound.now) }
    {
        let mut frame = Frame::new(bound);
        while frame.seen < bound.len() {
            frame = frame.with_next(alloc)?;
        }
        Ok(frame)
    }

    /// The frame with the next binding.
    pub fn with_next(self, alloc: Global) -> Result<Frame<'a>, AllocError>
        requires { self.seen < length self.bound.now }
        ensures bound { IfOk result (λ f. f.bound.now ≡ self.entry.bound.now) }
        ensures seen { IfOk result (λ f. f.seen ≡ suc self.entry.seen) }
    {
        let Frame {
            bound,
            seen,
            names,
            room,
        } = self;
        let pattern = &bound[seen].pattern;
        if let Some(mut names) = names {
            note_names(alloc, &mut names, pattern, seen)?;
            return Ok(Frame {
                bound,
                seen: seen + 1,
                names: Some(names),
                room,
            });
        }
        match room_after(pattern, room) {
            Some(room) => Ok(Frame {
                bound,
                seen: seen + 1,
                names: None,
                room,
            }),
            None => Ok(Frame {
                bound,
                seen: seen + 1,
                names: Some(note_bindings(alloc, &bound[..seen + 1])?),
                room,
            }),
        }
    }

    /// Where the value of a name is, if a binding that is seen binds it.
    pub fn find(&self, alloc: Global, name: &[u8]) -> Result<Option<NamePlace>, AllocError>
        ensures { IfOk result (FindsIn (patterns_before self.now.bound.now self.now.seen) name.now) }
    {
        match &self.names {
            Some(names) => noted_place(alloc, names, name),
            None => place_in_bindings(alloc, &self.bound[..self.seen], name),
        }
    }
}
