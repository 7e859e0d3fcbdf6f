// What the tokens so far leave, and one more that waits.

ghost use Rattle.std.specs.Prelude.{◌≡◌, ◌∷◌, [], ◌++◌, List, IfOk, IfErr, Some};
ghost use Rattle.nesl_syntax_open.specs.Machine.{Waiting, before};
ghost use Rattle.nesl_syntax_open.specs.Stack.{SeesPending, SeesStack};
ghost use Rattle.nesl_syntax_open.specs.Modes.{Follows};

use crate::fault::ParseFault;
use crate::pending::Pending;
use nesl_syntax_tree::parts::part::Part;
use nesl_syntax_tree::parts::types::TypePart;

/// What the tokens so far leave.
#[derive(Drop)]
pub enum Mode {
    /// An expression is to come.
    Before,
    /// An expression is before this place, and whether it is just a name.
    Behind { fresh: bool, part: Part },
    /// A type is to come.
    Typing,
    /// A type is before this place.
    Typed(TypePart),
}

/// One more that waits.
#[inline(always)]
pub fn push(stack: &mut Vec<Pending>, pending: Pending) -> Result<(), ParseFault>
    ensures pushed { IfOk result (λ u. stack.new.items ≡ stack.old.items ++ pending ∷ []) }
    ensures fails { IfErr result (λ e. e ≡ ParseFault.Memory) }
{
    stack.push(pending)?;
    Ok(())
}

/// One more that waits for an expression.
#[inline(always)]
pub fn wait(stack: &mut Vec<Pending>, pending: Pending) -> Result<Mode, ParseFault>
    ensures { (ws : List Waiting) (w : Waiting) → SeesStack stack.old.items ws → SeesPending pending w →
        Follows result stack.new.items (Some (w ∷ ws, before)) }
{
    push(stack, pending)?;
    Ok(Mode::Before)
}
