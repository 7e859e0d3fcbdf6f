//! Equations between types and classes of their variables, solved by a graph.

ghost use Rattle.std.specs.Prelude.{◌≡◌, ◌<◌, ◌↔◌, ℕ, [], All, length, IfOk, IsErrOf, IsTrue};
ghost use Rattle.nesl_types.specs.declared.classes.Class.{Class};
ghost use Rattle.nesl_types_shared.specs.Term.{Term};
ghost use Rattle.nesl_unify_graph.specs.Graph.{Fits};
ghost use Rattle.nesl_unify.specs.Bounds.{IsBounded};
ghost use Rattle.nesl_unify.specs.Facts.{AreFacts, AreTrue};
ghost use Rattle.nesl_unify.specs.Solved.{IsSolved, IsMet};
ghost use Rattle.nesl_unify.specs.Members.{IsInAll};
ghost use Rattle.nesl_unify.specs.Equations.{HasOwnPlaces};
ghost use Rattle.nesl_unify.specs.Solves.{AreBelow, SolvesAll, IsSolution, IsInstance, type_of, class_of};

pub use crate::equation::Equation;
use crate::equation::equate;
use crate::fact::Fact;
use crate::narrow::{Member, narrow};
pub use crate::solution::Solution;
use crate::start::{Start, start_table};
pub use crate::types::is_below;
use nesl_types_shared::Bank;
use nesl_unify_graph::unify::unify;
use nesl_unify_graph::{Instances, Node, SolveFault, are_within};
use std::alloc::{AllocError, Global};

/// The greatest number of nodes of a type.
const MOST_NODES: u64 = 4096;

/// The graph in which just the facts are true, where its types have at most 4,096 nodes.
fn solve_graph(
    alloc: Global,
    instances: &Instances,
    count: usize,
    facts: &[Fact],
) -> Result<Vec<Node>, SolveFault>
    requires { AreFacts instances.now count facts.now }
    ensures solved { IfOk result (λ ns. IsSolved instances.now count ns.items) }
    ensures holds { IfOk result (λ ns. (w : ℕ → Term) → Fits instances.now w ns.items
        → AreTrue instances.now facts.now w) }
    ensures general { IfOk result (λ ns. (s : ℕ → Term) → AreTrue instances.now facts.now s
        → IsMet instances.now count ns.items s) }
    ensures none { IsErrOf result SolveFault.NoSolution → (s : ℕ → Term) → IsBounded s
        → AreTrue instances.now facts.now s → ⊥ }
{
    let Start { mut nodes, pairs } = start_table(alloc, count, facts)?;
    unify(instances, count, &mut nodes, pairs)?;
    if !are_within(alloc, instances, nodes.as_slice(), MOST_NODES)? {
        return Err(SolveFault::NoSolution);
    }
    Ok(nodes)
}

/// A most general solution of the facts in which each member's variable has a type of its class.
pub(crate) fn solve_facts(
    alloc: Global,
    instances: Instances,
    count: usize,
    facts: &[Fact],
    members: &[Member],
) -> Result<Solution, SolveFault>
    requires facts { AreFacts instances count facts.now }
    requires members { All (λ m. m.variable < count) members.now }
    ensures holds { IfOk result (λ a. AreTrue instances facts.now (type_of a)) }
    ensures within { IfOk result (λ a. IsInAll (type_of a) (class_of a) members.now) }
    ensures general { IfOk result (λ a. (s : ℕ → Term) → (of : ℕ → Class) → AreTrue instances facts.now s
        → IsInAll s of members.now → IsInstance (type_of a) (class_of a) s of) }
    ensures bounded { IfOk result (λ a. IsBounded (type_of a)) }
    ensures none { IsErrOf result SolveFault.NoSolution → (s : ℕ → Term) → (of : ℕ → Class) → IsBounded s
        → AreTrue instances facts.now s → IsInAll s of members.now → ⊥ }
{
    let nodes = solve_graph(alloc, &instances, count, facts)?;
    let classes = narrow(alloc, &instances, nodes.as_slice(), members)?;
    Ok(Solution {
        instances,
        nodes,
        count,
        classes,
    })
}

/// Whether each variable of the equations is below the count.
pub fn are_below(count: u64, equations: &[Equation]) -> bool
    ensures { IsTrue result ↔ AreBelow count equations.now }
{
    for equation in equations {
        if !is_below(count, &equation.left) || !is_below(count, &equation.right) {
            return false;
        }
    }
    true
}

/// No instances, and the places of as many variables.
fn own_places(alloc: Global, count: u64) -> Result<Instances, AllocError>
    ensures { IfOk result (HasOwnPlaces count) }
{
    let mut fresh = Vec::with_capacity(alloc, count as usize)?;
    for variable in 0..count {
        fresh.push(variable as usize)?;
    }
    Ok(Instances {
        shared: Bank::new(alloc),
        made: Vec::new(alloc),
        fresh,
    })
}

/// What equations say.
struct Posed {
    instances: Instances,
    facts: Vec<Fact>,
}

/// What the equations say, unless they are found to have no solution.
fn pose(alloc: Global, count: u64, equations: &[Equation]) -> Result<Posed, SolveFault>
    requires { AreBelow count equations.now }
    ensures facts { IfOk result (λ a. AreFacts a.instances count a.facts.items) }
    ensures same { IfOk result (λ a. (s : ℕ → Term)
        → AreTrue a.instances a.facts.items s ↔ SolvesAll s equations.now) }
    ensures none { IsErrOf result SolveFault.NoSolution → (s : ℕ → Term) → SolvesAll s equations.now → ⊥ }
{
    let mut instances = own_places(alloc, count)?;
    let mut facts = Vec::new(alloc);
    for equation in equations {
        equate(alloc, &mut instances, &mut facts, equation)?;
    }
    Ok(Posed { instances, facts })
}

/// A most general solution of the equations in which each member's variable has a type of its class. The variables are
/// numbers below `count`. An equation whose sides are both no variables takes as long as the smaller of them has nodes.
pub fn solve(
    alloc: Global,
    count: u64,
    equations: &[Equation],
    members: &[Member],
) -> Result<Solution, SolveFault>
    requires equations { AreBelow count equations.now }
    requires members { All (λ m. m.variable < count) members.now }
    ensures solves { IfOk result (λ a. IsSolution equations.now members.now (type_of a) (class_of a)) }
    ensures general { IfOk result (λ a. (s : ℕ → Term) → (of : ℕ → Class) → IsSolution equations.now members.now s of
        → IsInstance (type_of a) (class_of a) s of) }
    ensures bounded { IfOk result (λ a. IsBounded (type_of a)) }
    ensures none { IsErrOf result SolveFault.NoSolution → (s : ℕ → Term) → (of : ℕ → Class) → IsBounded s
        → IsSolution equations.now members.now s of → ⊥ }
{
    let Posed { instances, facts } = pose(alloc, count, equations)?;
    solve_facts(alloc, instances, count as usize, facts.as_slice(), members)
}
