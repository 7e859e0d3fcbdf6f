//! Variables of the top level that a long expression names again and again.

ghost use Rattle.std.specs.Prelude.{◌≡◌, ◌≤◌, ℕ, IsTrue, Some};
ghost use Rattle.nesl_types_shared.specs.Term.{Term, nodes};
ghost use Rattle.nesl_infer_names.specs.Names.{hides};
ghost use Rattle.nesl_infer_rules.specs.World.{own_name};
ghost use Rattle.nesl_infer_rules.specs.Steps.{own_at};
ghost use Rattle.nesl_infer_rules.specs.Outers.{meant_at};

use crate::long::is_long;
use nesl_infer_rules::outer::Outer;
use nesl_infer_rules::state::OwnName;
use nesl_syntax_tree::tree::{Binding, Exp, Node};
use nesl_types::{Top, Ty};
use std::alloc::{AllocError, Global};
use std::collections::BTreeMap;

/// How often an expression names a variable that it repeats.
const OFTEN: u64 = 16;

/// How many variables are noted as repeated at most: each is one more level of calls.
const MOST: usize = 64;

/// From how many nodes on a type is large. A smaller one is compared in no time.
const LARGE: u64 = 64;

/// The most nodes of a type.
const MOST_NODES: u64 = 4096;

/// How often an expression names each large variable, as far as it was looked through.
struct Uses<'a> {
    counts: BTreeMap<&'a [u8], u64>,
    repeated: Vec<&'a [u8]>,
}

// By hand, so that no function has to prove how the parts are dropped.
impl<'a> Drop for Uses<'a> {
    fn drop(self) {
        let Uses { counts, repeated } = self;
        drop((counts, repeated));
    }
}

impl<'a> Uses<'a> {
    fn new(alloc: Global) -> Uses<'a> {
        Uses {
            counts: BTreeMap::new(alloc),
            repeated: Vec::new(alloc),
        }
    }

    /// How often a name was counted.
    fn count(&self, name: &[u8]) -> u64 {
        match self.counts.get(name) {
            Some(count) => *count,
            None => 0,
        }
    }

    /// Counts a use of a name.
    fn note(&mut self, name: &'a [u8]) -> Result<(), AllocError> {
        let count = self.count(name).saturating_add(1);
        if self.counts.insert(name, count).is_err() {
            return Err(AllocError);
        }
        if count == OFTEN && self.repeated.len() < MOST {
            self.repeated.push(name)?;
        }
        Ok(())
    }

    /// The names that were counted often.
    fn into_repeated(self) -> Vec<&'a [u8]> {
        let Uses { counts, repeated } = self;
        drop(counts);
        repeated
    }
}

/// Whether the name is no variable since a function is being defined.
fn is_hidden(own: &Option<OwnName>, name: &[u8]) -> bool
    ensures { (s : ℕ → Term) → result ≡ hides (own_name (own_at s own.now)) name.now }
{
    match own {
        Some(own) => name == own.name.as_slice() || name == b"it".as_slice(),
        None => false,
    }
}

/// Whether a type has many nodes, and not too many for an expression.
fn is_large(ty: &Ty) -> bool
    ensures { IsTrue result → nodes ty.now ≤ 4096 }
{
    match ty.room_left(MOST_NODES) {
        Some(left) => left + LARGE <= MOST_NODES,
        None => false,
    }
}

/// Whether the name is a variable of the top level that has a large type.
pub fn is_large_variable<P: Drop>(outer: &Outer<'_, P>, name: &[u8]) -> bool
    ensures { IsTrue result → (s : ℕ → Term) → (t : Term)
        × (nodes t ≤ 4096) × ((meant_at outer.now s).variables name.now ≡ Some t) }
{
    if is_hidden(&outer.own, name) {
        return false;
    }
    match outer.context.get(name) {
        Some((Top::Variable(ty), _)) => is_large(ty),
        Some((Top::Function(_), _)) => false,
        Some((Top::Datatype(_, _), _)) => false,
        None => false,
    }
}

/// Counts the uses of large variables in an expression. A local name of the same letters is counted too.
#[cycle(note_in)]
fn note_in<'a, P: Drop>(
    outer: &Outer<'_, P>,
    uses: &mut Uses<'a>,
    exp: &'a Exp,
) -> Result<(), AllocError> {
    match &exp.node {
        Node::Number(_) | Node::Truth(_) | Node::Character(_) => Ok(()),
        Node::Text(_) | Node::Element | Node::Empty(_) => Ok(()),
        Node::Variable(name) => {
            if is_large_variable(outer, name.as_slice()) {
                return uses.note(name.as_slice());
            }
            Ok(())
        }
        Node::Call { argument, .. } => note_in(outer, uses, argument),
        Node::Prefix { operand, .. } => note_in(outer, uses, operand),
        Node::Pair { left, right } => {
            note_in(outer, uses, left)?;
            note_in(outer, uses, right)
        }
        Node::Infix { left, right, .. } => {
            note_in(outer, uses, left)?;
            note_in(outer, uses, right)
        }
        Node::Index { sequence, index } => {
            note_in(outer, uses, sequence)?;
            note_in(outer, uses, index)
        }
        Node::Choice { test, yes, no } => {
            note_in(outer, uses, test)?;
            note_in(outer, uses, yes)?;
            note_in(outer, uses, no)
        }
        Node::Sequence(items) => note_in_items(outer, uses, items.as_slice()),
        Node::Range { from, to } => {
            note_in(outer, uses, from)?;
            note_in(outer, uses, to)
        }
        Node::StridedRange { from, to, stride } => {
            note_in(outer, uses, from)?;
            note_in(outer, uses, to)?;
            note_in(outer, uses, stride)
        }
        Node::Let { bindings, body } | Node::Each { body, bindings } => {
            note_in_bindings(outer, uses, bindings.as_slice())?;
            note_in(outer, uses, body)
        }
        Node::FilteredEach {
            body,
            bindings,
            filter,
        } => {
            note_in_bindings(outer, uses, bindings.as_slice())?;
            note_in(outer, uses, body)?;
            note_in(outer, uses, filter)
        }
    }
}

/// Counts the uses in each of the expressions.
#[cycle(note_in)]
fn note_in_items<'a, P: Drop>(
    outer: &Outer<'_, P>,
    uses: &mut Uses<'a>,
    items: &'a [Exp],
) -> Result<(), AllocError> {
    for item in items {
        note_in(outer, uses, item)?;
    }
    Ok(())
}

/// Counts the uses in the values of bindings.
#[cycle(note_in)]
fn note_in_bindings<'a, P: Drop>(
    outer: &Outer<'_, P>,
    uses: &mut Uses<'a>,
    bindings: &'a [Binding],
) -> Result<(), AllocError> {
    for binding in bindings {
        note_in(outer, uses, &binding.value)?;
    }
    Ok(())
}

/// The large variables that an expression repeats, if it is long. Nothing but the time of typing depends on them.
pub fn repeated<'a, P: Drop>(
    alloc: Global,
    outer: &Outer<'_, P>,
    exp: &'a Exp,
) -> Result<Vec<&'a [u8]>, AllocError> {
    let mut uses = Uses::new(alloc);
    if is_long(exp) {
        note_in(outer, &mut uses, exp)?;
    }
    Ok(uses.into_repeated())
}
