//! The equations of leaves.

ghost use Rattle.std.specs.Prelude.{◌≡◌, ◌<◌, ℕ, List, Some, IfSome, OnOk};
ghost use Rattle.nesl_types_shared.specs.Term.{Term, char, seq_of};
ghost use Rattle.nesl_syntax_tree.specs.Trees.{variable};
ghost use Rattle.nesl_syntax_tree.specs.Views.{shape_of};
ghost use Rattle.nesl_infer_rules.specs.Steps.{count, scope_at, Adds, AreLocalsBelow};
ghost use Rattle.nesl_infer_rules.specs.Typing.{local_type};

use nesl_infer_rules::locals::Locals;
use nesl_infer_rules::state::State;
use nesl_syntax_tree::tree::{Exp, Node};
use nesl_unify::Flat;
use std::alloc::AllocError;

/// Adds what makes `target` the type of a text.
pub fn is_text(state: &mut State, target: u64) -> Result<(), AllocError>
    requires target { target < count state.old }
    ensures { OnOk result (Adds state.old state.new (λ s of. s target ≡ seq_of char)) }
{
    let letter = state.add_exact(Flat::Char)?;
    state.equate_sequence(target, letter)
}

/// The variable of a local name, if the expression is one.
pub fn local_variable(locals: &Locals<'_>, exp: &Exp) -> Option<u64>
    ensures found { IfSome result (λ v. (x : List ℕ) × (shape_of exp.now.node ≡ variable x)
        × ((s : ℕ → Term) → local_type x (scope_at s locals.now) ≡ Some (s v))) }
    ensures below { IfSome result (λ v. (n : ℕ) → AreLocalsBelow n locals.now → v < n) }
{
    match &exp.node {
        Node::Variable(name) => locals.look_up(name.as_slice()),
        _ => None,
    }
}
