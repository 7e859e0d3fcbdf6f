//! Systems: equations between types and classes of variables, which are added one by one.

ghost use Rattle.std.specs.Prelude.{◌≡◌, ◌<◌, ◌++◌, ◌∷◌, [], ◌↔◌, ℕ, All, length, slice_index, IfOk, OnOk, IsErrOf};
ghost use Rattle.nesl_types.specs.declared.classes.Class.{Class};
ghost use Rattle.nesl_types_shared.specs.Term.{Term};
ghost use Rattle.nesl_types_shared.specs.Substitution.{substitute};
ghost use Rattle.nesl_types_shared.specs.Numbering.{IsBelow};
ghost use Rattle.nesl_unify.specs.Flat.{flat_type};
ghost use Rattle.nesl_unify.specs.Facts.{flat_node};
ghost use Rattle.nesl_unify.specs.Bounds.{IsBounded};
ghost use Rattle.nesl_unify.specs.Solves.{IsInstance, type_of, class_of};
ghost use Rattle.nesl_unify.specs.Systems.{count, IsSolvedBy, SolvesSystem, IsSystem};

use crate::fact::Fact;
use crate::flat::Flat;
use crate::instance::{own_node, shared_node};
use crate::narrow::Member;
use crate::room::push_with_room;
use crate::solution::Solution;
use crate::solve::solve_facts;
use nesl_types::{Class, Part, Ty};
use nesl_types_shared::Bank;
use nesl_unify_graph::{Instances, Node, SolveFault};
use std::alloc::{AllocError, Global};
use std::mem::replace;

/// How many variables a system has at most. Typing is charged no work, so a line that needs more is refused as out of
/// memory.
const MOST_VARIABLES: usize = 1 << 20;

/// Equations between types, and the class of each variable. Types that stand for many are copied nowhere. After memory
/// ran out, a system is of no more use.
pub struct System {
    facts: Vec<Fact>,
    instances: Instances,
    members: Vec<Member>,
}

// By hand, so that no crate above has to prove how the parts are dropped.
impl Drop for System {
    fn drop(self) {
        let System {
            facts,
            instances,
            members,
        } = self;
        drop((facts, instances, members));
    }
}

/// The node of a type whose parts are variables.
fn flat_node(flat: Flat) -> Node
    ensures { result ≡ flat_node flat }
{
    match flat {
        Flat::Int => Node::Int,
        Flat::Bool => Node::Bool,
        Flat::Char => Node::Char,
        Flat::Var(variable) => Node::Same(variable as usize),
        Flat::Named(tag) => Node::Named(tag),
        Flat::SeqOf(item) => Node::SeqOf(item as usize),
        Flat::Both(first, second) => Node::Both(first as usize, second as usize),
    }
}

fn no_instances(alloc: Global) -> Instances
    ensures { result.fresh.items ≡ [] }
{
    Instances {
        shared: Bank::new(alloc),
        made: Vec::new(alloc),
        fresh: Vec::new(alloc),
    }
}

impl System {
    /// A system without variables and equations.
    pub fn new(alloc: Global) -> System
        ensures system { IsSystem result }
        ensures members { result.members.items ≡ [] }
        ensures holds { (s : ℕ → Term) → IsSolvedBy result s }
    {
        System {
            facts: Vec::new(alloc),
            instances: no_instances(alloc),
            members: Vec::new(alloc),
        }
    }

    /// A law: only the types of a system's own variables decide whether it is solved.
    pub fn variables_decide(&self)
        requires { IsSystem self.now }
        ensures { (s : ℕ → Term) → (z : ℕ → Term) → ((v : ℕ) → v < count self.now → s v ≡ z v) → IsSolvedBy self.now s
            → IsSolvedBy self.now z }
    {}

    /// How many variables there are.
    pub fn len(&self) -> u64
        ensures { result ≡ count self.now }
    {
        self.members.len() as u64
    }

    /// A variable more, for types of a class. `AllocError` also where there are `MOST_VARIABLES`.
    pub fn fresh(&mut self, class: Class) -> Result<u64, AllocError>
        requires { IsSystem self.old }
        ensures system { OnOk result (IsSystem self.new) }
        ensures variable { IfOk result (λ v. v ≡ count self.old) }
        ensures members { IfOk result (λ v. self.new.members.items
            ≡ self.old.members.items ++ record { variable = v; class = class } ∷ []) }
        ensures holds { OnOk result ((s : ℕ → Term) → IsSolvedBy self.new s ↔ IsSolvedBy self.old s) }
    {
        if self.members.len() >= MOST_VARIABLES {
            return Err(AllocError);
        }
        let variable = self.members.len() as u64;
        push_with_room(&mut self.members, Member { variable, class })?;
        Ok(variable)
    }

    /// An equation more: the variable is a type whose parts are variables.
    pub fn equate_flat(&mut self, variable: u64, flat: Flat) -> Result<(), AllocError>
        requires system { IsSystem self.old }
        requires variable { variable < count self.old }
        requires flat { IsBelow (count self.old) (flat_type flat) }
        ensures system { OnOk result (IsSystem self.new) }
        ensures members { OnOk result (self.new.members.items ≡ self.old.members.items) }
        ensures holds { OnOk result
            ((s : ℕ → Term) → IsSolvedBy self.new s
            ↔ (IsSolvedBy self.old s × (s variable ≡ substitute s (flat_type flat)))) }
    {
        let node = flat_node(flat);
        let variable = variable as usize;
        push_with_room(&mut self.facts, Fact { variable, node })?;
        Ok(())
    }

    /// An equation more: the variable is an instance of a type, in which `fresh` gives each variable the one
    /// that stands for it. The type is put among those that all instances share.
    pub fn equate_instance(
        &mut self,
        alloc: Global,
        variable: u64,
        fresh: &[u64],
        part: &Part<'_>,
    ) -> Result<(), AllocError>
        requires system { IsSystem self.old }
        requires variable { variable < count self.old }
        requires fresh { All (λ v. v < count self.old) fresh.now }
        requires part { IsBelow (length fresh.now) part.now }
        ensures system { OnOk result (IsSystem self.new) }
        ensures members { OnOk result (self.new.members.items ≡ self.old.members.items) }
        ensures holds { OnOk result
            ((s : ℕ → Term) →
            IsSolvedBy self.new s
            ↔ (IsSolvedBy self.old s × (s variable ≡ substitute (λ v. s (slice_index fresh.now v)) part.now))) }
    {
        let node = shared_node(alloc, &mut self.instances, fresh, part)?;
        let variable = variable as usize;
        push_with_room(&mut self.facts, Fact { variable, node })?;
        Ok(())
    }

    /// An equation more: the variable is an instance of a whole type, in which `fresh` gives each variable the
    /// one that stands for it. It costs no more for a large type.
    pub fn equate_whole(
        &mut self,
        alloc: Global,
        variable: u64,
        fresh: &[u64],
        ty: &Ty,
    ) -> Result<(), AllocError>
        requires system { IsSystem self.old }
        requires variable { variable < count self.old }
        requires fresh { All (λ v. v < count self.old) fresh.now }
        requires ty { IsBelow (length fresh.now) ty.now }
        ensures system { OnOk result (IsSystem self.new) }
        ensures members { OnOk result (self.new.members.items ≡ self.old.members.items) }
        ensures holds { OnOk result
            ((s : ℕ → Term) →
            IsSolvedBy self.new s
            ↔ (IsSolvedBy self.old s × (s variable ≡ substitute (λ v. s (slice_index fresh.now v)) ty.now))) }
    {
        let node = own_node(alloc, &mut self.instances, fresh, ty)?;
        let variable = variable as usize;
        push_with_room(&mut self.facts, Fact { variable, node })?;
        Ok(())
    }

    /// A most general solution of the equations in which each variable has a type of its class.
    pub fn solve(mut self, alloc: Global) -> Result<Solution, SolveFault>
        requires { IsSystem self }
        ensures solves { IfOk result (λ a. SolvesSystem self (type_of a) (class_of a)) }
        ensures general { IfOk result (λ a. (s : ℕ → Term) → (of : ℕ → Class) → SolvesSystem self s of
            → IsInstance (type_of a) (class_of a) s of) }
        ensures bounded { IfOk result (λ a. IsBounded (type_of a)) }
        ensures none { IsErrOf result SolveFault.NoSolution → (s : ℕ → Term) → (of : ℕ → Class) → IsBounded s
            → SolvesSystem self s of → ⊥ }
    {
        let instances = replace(&mut self.instances, no_instances(alloc));
        solve_facts(
            alloc,
            instances,
            self.members.len(),
            self.facts.as_slice(),
            self.members.as_slice(),
        )
    }
}
