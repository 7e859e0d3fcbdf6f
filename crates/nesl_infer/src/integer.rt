//! Expressions that are integers by their leaves alone: no variable is needed to find their types.

ghost use Rattle.std.specs.Prelude.{◌≡◌, IsTrue, None, Some};
ghost use Rattle.nesl_types.specs.declared.classes.Class.TheVariants.{Number};
ghost use Rattle.nesl_types_shared.specs.Term.{int, pair_of};
ghost use Rattle.nesl_syntax_tree.specs.Views.{tree_of};
ghost use Rattle.nesl_builtins.specs.Named.{infix_builtin};
ghost use Rattle.nesl_builtins.specs.FunctionTypes.{a, builtin_type, in_class};
ghost use Rattle.nesl_infer_rules.specs.World.{meanings_in};
ghost use Rattle.nesl_infer.specs.Only.{IsOnlyType};

use nesl_syntax_tree::tree::{Exp, Node, Operator};
use nesl_types::{Context, Kind, Top};

/// Whether the operator takes two numbers and gives a number.
fn is_arithmetic(operator: Operator) -> bool
    ensures { IsTrue result → builtin_type (infix_builtin operator) ≡ in_class Number (pair_of a a) a }
{
    match operator {
        Operator::Plus => true,
        Operator::Minus => true,
        Operator::Times => true,
        Operator::Divide => true,
        _ => false,
    }
}

/// Whether the name is a variable of the top level that is an integer.
fn is_integer_variable<P: Drop>(context: &Context<P>, name: &[u8]) -> bool
    ensures { IsTrue result → (meanings_in context.now None).variables name.now ≡ Some int }
{
    match context.get(name) {
        Some((Top::Variable(ty), _)) => match ty.kind() {
            Kind::Int => true,
            _ => false,
        },
        Some((Top::Function(_), _)) => false,
        Some((Top::Datatype(_, _), _)) => false,
        None => false,
    }
}

/// Whether the expression is made of integers by arithmetic alone. It may say no where the expression is an integer.
pub fn is_integer<P: Drop>(context: &Context<P>, exp: &Exp) -> bool
    ensures { IsTrue result → IsOnlyType context.now (tree_of exp.now) int }
{
    match &exp.node {
        Node::Number(_) => true,
        Node::Variable(name) => is_integer_variable(context, name.as_slice()),
        Node::Infix {
            operator,
            left: first,
            right: second,
        } => {
            if is_arithmetic(*operator) {
                if is_integer(context, first) {
                    return is_integer(context, second);
                }
            }
            false
        }
        _ => false,
    }
}
