//! The classes of the variables that are left.

ghost use Rattle.std.specs.Prelude.{◌≡◌, ◌≢◌, ◌<◌, ◌↔◌, ℕ, All, IsTrue, IfOk, IsErrOf, OnOk, length, vec_len};
ghost use Rattle.nesl_types.specs.declared.classes.Class.{Class};
ghost use Rattle.nesl_types_shared.specs.Term.{Term, variable as variable_type};
ghost use Rattle.nesl_types_shared.specs.Substitution.{substitute};
ghost use Rattle.nesl_types_shared.specs.Shapes.{shape_type};
ghost use Rattle.nesl_types.specs.Class.{IsIn};
ghost use Rattle.nesl_types.specs.Class.{class_at};
ghost use Rattle.nesl_unify_graph.specs.Graph.{IsFlat};
ghost use Rattle.nesl_unify_graph.specs.Forms.{IsTableOf};
ghost use Rattle.nesl_unify.specs.Members.{IsInAll};
ghost use Rattle.nesl_unify.specs.Solves.{IsReading};

use crate::shapes::top_shape;
use nesl_types::{Class, meet};
use nesl_types_shared::Shape;
use nesl_unify_graph::{Instances, Node, SolveFault};
use std::alloc::{AllocError, Global};

/// What a variable stands for has to be in a class.
#[derive(Clone, Copy)]
pub struct Member {
    pub variable: u64,
    pub class: Class,
}

/// Whether each member's variable is below the count.
pub fn members_are_below(count: u64, members: &[Member]) -> bool
    ensures { IsTrue result ↔ All (λ m. m.variable < count) members.now }
{
    members.iter().all(|member| member.variable < count)
}

/// Makes room for the variable.
fn make_class_room(classes: &mut Vec<Class>, variable: u64) -> Result<(), AllocError>
    ensures same { OnOk result ((v : ℕ) → class_at classes.new.items v ≡ class_at classes.old.items v) }
    ensures room { OnOk result (variable < vec_len classes.new) }
{
    while classes.len() as u64 <= variable {
        classes.push(Class::Any)?;
    }
    Ok(())
}

/// Restricts the class of a variable to what it shares with another one.
fn meet_class(classes: &mut Vec<Class>, variable: u64, class: Class) -> Result<(), AllocError>
    ensures here { OnOk result ((of : ℕ → Class) → (t : Term)
        → IsIn of (class_at classes.new.items variable) t
        ↔ (IsIn of (class_at classes.old.items variable) t × IsIn of class t)) }
    ensures others { OnOk result ((v : ℕ) → v ≢ variable
        → class_at classes.new.items v ≡ class_at classes.old.items v) }
{
    make_class_room(classes, variable)?;
    let place = variable as usize;
    classes[place] = meet(classes[place], class);
    Ok(())
}

/// Restricts a variable to a class.
fn restrict(classes: &mut Vec<Class>, variable: u64, class: Class) -> Result<(), AllocError>
    ensures within { OnOk result (IsIn (class_at classes.new.items) class (variable_type variable)) }
    ensures narrower { OnOk result ((v : ℕ) → (of : ℕ → Class) → (t : Term) → IsIn of (class_at classes.new.items v) t
        → IsIn of (class_at classes.old.items v) t) }
    ensures general { OnOk result ((w : ℕ → Term) → (of : ℕ → Class) → IsIn of class (w variable)
        → ((v : ℕ) → IsIn of (class_at classes.old.items v) (w v)) → (v : ℕ)
        → IsIn of (class_at classes.new.items v) (w v)) }
{
    meet_class(classes, variable, class)?;
    Ok(())
}

/// Restricts the variable where a shape is one, so that its type is in a class, whatever its parts are.
fn restrict_shape(classes: &mut Vec<Class>, shape: Shape, class: Class) -> Result<(), SolveFault>
    ensures within { OnOk result ((f : ℕ → Term) → IsIn (class_at classes.new.items) class (shape_type f shape)) }
    ensures narrower { OnOk result ((v : ℕ) → (of : ℕ → Class) → (t : Term) → IsIn of (class_at classes.new.items v) t
        → IsIn of (class_at classes.old.items v) t) }
    ensures general { OnOk result ((f : ℕ → Term) → (w : ℕ → Term) → (of : ℕ → Class)
        → IsIn of class (substitute w (shape_type f shape))
        → ((v : ℕ) → IsIn of (class_at classes.old.items v) (w v)) → (v : ℕ)
        → IsIn of (class_at classes.new.items v) (w v)) }
    ensures none { IsErrOf result SolveFault.NoSolution → (f : ℕ → Term) → (w : ℕ → Term) → (of : ℕ → Class)
        → IsIn of class (substitute w (shape_type f shape)) → ⊥ }
{
    match (shape, class) {
        (Shape::Var(variable), _) => Ok(restrict(classes, variable, class)?),
        (_, Class::Any) => Ok(()),
        (Shape::Int, _) => Ok(()),
        (Shape::Bool, Class::Logical) => Ok(()),
        (Shape::Char, Class::Ordinal) => Ok(()),
        _ => Err(SolveFault::NoSolution),
    }
}

/// Restricts the variable that stands for a member's variable, if one does, so that the type is in the member's class.
#[tactic(auto, using(crate::proofs::Narrowing::all_in_any))]
fn restrict_member(
    classes: &mut Vec<Class>,
    instances: &Instances,
    nodes: &[Node],
    member: &Member,
) -> Result<(), SolveFault>
    requires table { IsTableOf instances.now nodes.now }
    requires flat { IsFlat nodes.now }
    requires member { member.now.variable < length nodes.now }
    ensures within { OnOk result ((g : ℕ → Term) → IsReading instances.now nodes.now g
        → IsIn (class_at classes.new.items) member.now.class (g member.now.variable)) }
    ensures narrower { OnOk result ((v : ℕ) → (of : ℕ → Class) → (t : Term) → IsIn of (class_at classes.new.items v) t
        → IsIn of (class_at classes.old.items v) t) }
    ensures general { OnOk result ((g : ℕ → Term) → IsReading instances.now nodes.now g
        → (w : ℕ → Term) → (of : ℕ → Class)
        → IsIn of member.now.class (substitute w (g member.now.variable))
        → ((v : ℕ) → IsIn of (class_at classes.old.items v) (w v)) → (v : ℕ)
        → IsIn of (class_at classes.new.items v) (w v)) }
    ensures none { IsErrOf result SolveFault.NoSolution → (g : ℕ → Term) → IsReading instances.now nodes.now g
        → (w : ℕ → Term) → (of : ℕ → Class)
        → IsIn of member.now.class (substitute w (g member.now.variable)) → ⊥ }
{
    if let Class::Any = member.class {
        return Ok(());
    }
    let shape = top_shape(instances, nodes, member.variable as usize);
    restrict_shape(classes, shape, member.class)?;
    Ok(())
}

/// The classes of the variables in the types of a graph, whose first places are those of the members' variables, as
/// wide as the members allow.
pub(crate) fn narrow(
    alloc: Global,
    instances: &Instances,
    nodes: &[Node],
    members: &[Member],
) -> Result<Vec<Class>, SolveFault>
    requires table { IsTableOf instances.now nodes.now }
    requires flat { IsFlat nodes.now }
    requires members { All (λ m. m.variable < length nodes.now) members.now }
    ensures within { IfOk result (λ cs. (g : ℕ → Term) → IsReading instances.now nodes.now g
        → IsInAll g (class_at cs.items) members.now) }
    ensures general { IfOk result (λ cs. (g : ℕ → Term) → IsReading instances.now nodes.now g
        → (w : ℕ → Term) → (of : ℕ → Class)
        → IsInAll (λ v. substitute w (g v)) of members.now → (v : ℕ)
        → IsIn of (class_at cs.items v) (w v)) }
    ensures none { IsErrOf result SolveFault.NoSolution → (g : ℕ → Term) → IsReading instances.now nodes.now g
        → (w : ℕ → Term) → (of : ℕ → Class)
        → IsInAll (λ v. substitute w (g v)) of members.now → ⊥ }
{
    let mut classes = Vec::new(alloc);
    for member in members {
        restrict_member(&mut classes, instances, nodes, member)?;
    }
    Ok(classes)
}
