//! The equations and the variables so far.

ghost use Rattle.std.specs.Prelude.{◌≡◌, true};
ghost use Rattle.nesl_unify.specs.Systems.{IsSystem};
ghost use Rattle.nesl_infer_rules.specs.Facts.{facts};

use nesl_types::{Class, Part, Ty};
use nesl_unify::solve::Solution;
use nesl_unify::{Flat, SolveFault, System};
use std::alloc::{AllocError, Global};

/// The equations, and the class of each variable.
#[derive(Drop)]
pub struct State {
    /// What makes the lists of a line.
    pub alloc: Global,
    pub system: System,
    /// Whether all equations are there: after memory ran out they aren't, and nothing more is added.
    pub is_whole: bool,
    pub ghost made: { is_whole ≡ true → IsSystem system } by { Prim.hlevel facts },
}

/// What has a local type. Its name is that of the text.
#[derive(Clone, Copy)]
pub enum Key<'a> {
    Name(&'a [u8]),
    /// The element that an apply-to-each without a body gives.
    Element,
}

/// A local name, and the variable of its type.
#[derive(Clone, Copy)]
pub struct Local<'a> {
    pub key: Key<'a>,
    pub variable: u64,
}

/// The function that is being defined, and the variables of what it takes and gives.
#[derive(Drop)]
pub struct OwnName {
    pub name: Vec<u8>,
    pub takes: u64,
    pub gives: u64,
}

impl State {
    ghost use Rattle.std.specs.Prelude.{◌≡◌, ◌<◌, ◌≤◌, ℕ, All, length, map, IfOk, OnOk, IsErrOf};
    ghost use Rattle.nesl_types.specs.declared.classes.Class.{Class};
    ghost use Rattle.nesl_types_shared.specs.Term.{Term, nodes, pair_of, seq_of};
    ghost use Rattle.nesl_types_shared.specs.Numbering.{IsBelow};
    ghost use Rattle.nesl_types.specs.Class.{IsIn};
    ghost use Rattle.nesl_types_shared.specs.Substitution.{substitute};
    ghost use Rattle.nesl_unify.specs.Bounds.{IsBounded};
    ghost use Rattle.nesl_unify.specs.Flat.{flat_type};
    ghost use Rattle.nesl_unify.specs.Solves.{IsInstance, type_of, class_of};
    ghost use Rattle.nesl_infer_rules.specs.Steps.{count, IsSolution, Gives, Adds};
    ghost use Rattle.nesl_infer_rules.specs.Instances.{type_in};

    /// No equations, and no variables.
    pub fn new(alloc: Global) -> State
        ensures { (s : ℕ → Term) → (of : ℕ → Class) → IsSolution s of result }
    {
        State {
            alloc,
            system: System::new(alloc),
            is_whole: true,
        }
    }

    /// A variable without equations so far.
    pub fn fresh(&mut self, class: Class) -> Result<u64, AllocError>
        ensures gives { IfOk result (λ v. Gives self.old self.new (λ s. s v) (λ s of u. IsIn of class u
            × (nodes u ≤ 4096))) }
        ensures below { IfOk result (λ v. v < count self.new) }
    {
        if !self.is_whole {
            return Err(AllocError);
        }
        self.is_whole = false;
        let variable = self.system.fresh(class)?;
        self.is_whole = true;
        Ok(variable)
    }

    /// A variable for any type.
    pub fn add_any(&mut self) -> Result<u64, AllocError>
        ensures gives { IfOk result (λ v. Gives self.old self.new (λ s. s v) (λ s of u. nodes u ≤ 4096)) }
        ensures below { IfOk result (λ v. v < count self.new) }
    {
        Ok(self.fresh(Class::Any)?)
    }

    /// A variable for this type alone.
    pub fn add_exact(&mut self, flat: Flat) -> Result<u64, AllocError>
        requires closed { IsBelow 0 (flat_type flat) }
        requires small { nodes (flat_type flat) ≤ 4096 }
        ensures gives { IfOk result (λ v. Gives self.old self.new (λ s. s v) (λ s of u. u ≡ flat_type flat)) }
        ensures below { IfOk result (λ v. v < count self.new) }
    {
        let variable = self.add_any()?;
        self.equate_flat(variable, flat)?;
        Ok(variable)
    }

    /// The variable is the type.
    pub fn equate_flat(&mut self, variable: u64, flat: Flat) -> Result<(), AllocError>
        requires variable { variable < count self.old }
        requires flat { IsBelow (count self.old) (flat_type flat) }
        ensures { OnOk result (Adds self.old self.new (λ s of. s variable ≡ substitute s (flat_type flat))) }
    {
        if !self.is_whole {
            return Err(AllocError);
        }
        self.is_whole = false;
        self.system.equate_flat(variable, flat)?;
        self.is_whole = true;
        Ok(())
    }

    /// An equation that never holds.
    pub fn add_contradiction(&mut self) -> Result<(), AllocError>
        ensures { OnOk result (Adds self.old self.new (λ s of. ⊥)) }
    {
        let none = self.add_any()?;
        self.equate_flat(none, Flat::Int)?;
        self.equate_flat(none, Flat::Bool)?;
        Ok(())
    }

    /// The variable is a type with what the fresh variables stand for in place of its variables.
    pub fn equate_instance(
        &mut self,
        variable: u64,
        fresh: &[u64],
        part: &Part<'_>,
    ) -> Result<(), AllocError>
        requires variable { variable < count self.old }
        requires fresh { All (λ v. v < count self.old) fresh.now }
        requires part { IsBelow (length fresh.now) part.now }
        ensures { OnOk result (Adds self.old self.new (λ s of. s variable
            ≡ substitute (type_in (map s fresh.now)) part.now)) }
    {
        if !self.is_whole {
            return Err(AllocError);
        }
        self.is_whole = false;
        self.system
            .equate_instance(self.alloc, variable, fresh, part)?;
        self.is_whole = true;
        Ok(())
    }

    /// The variable is a whole type with what the fresh variables stand for in place of its variables. Nothing
    /// of the type is copied.
    pub fn equate_whole(&mut self, variable: u64, fresh: &[u64], ty: &Ty) -> Result<(), AllocError>
        requires variable { variable < count self.old }
        requires fresh { All (λ v. v < count self.old) fresh.now }
        requires ty { IsBelow (length fresh.now) ty.now }
        ensures { OnOk result (Adds self.old self.new (λ s of. s variable
            ≡ substitute (type_in (map s fresh.now)) ty.now)) }
    {
        if !self.is_whole {
            return Err(AllocError);
        }
        self.is_whole = false;
        self.system.equate_whole(self.alloc, variable, fresh, ty)?;
        self.is_whole = true;
        Ok(())
    }

    /// The variable is a type in which there are no variables.
    pub fn equate_closed(&mut self, variable: u64, ty: &Ty) -> Result<(), AllocError>
        requires variable { variable < count self.old }
        requires ty { IsBelow 0 ty.now }
        ensures { OnOk result (Adds self.old self.new (λ s of. s variable ≡ ty.now)) }
    {
        let none: [u64; 0] = [];
        self.equate_whole(variable, &none, ty)?;
        Ok(())
    }

    /// The variable is the pairs of what the others stand for.
    pub fn equate_pair(&mut self, variable: u64, first: u64, second: u64) -> Result<(), AllocError>
        requires variable { variable < count self.old }
        requires first { first < count self.old }
        requires second { second < count self.old }
        ensures { OnOk result (Adds self.old self.new (λ s of. s variable ≡ pair_of (s first) (s second))) }
    {
        self.equate_flat(variable, Flat::Both(first, second))?;
        Ok(())
    }

    /// The variable is the sequences of what the other stands for.
    pub fn equate_sequence(&mut self, variable: u64, item: u64) -> Result<(), AllocError>
        requires variable { variable < count self.old }
        requires item { item < count self.old }
        ensures { OnOk result (Adds self.old self.new (λ s of. s variable ≡ seq_of (s item))) }
    {
        self.equate_flat(variable, Flat::SeqOf(item))?;
        Ok(())
    }

    /// A most general solution of the equations in which each variable has a type of its class.
    pub fn solve(self) -> Result<Solution, SolveFault>
        ensures solves { IfOk result (λ a. IsSolution (type_of a) (class_of a) self) }
        ensures general { IfOk result (λ a. (s : ℕ → Term) → (of : ℕ → Class) → IsSolution s of self
            → IsInstance (type_of a) (class_of a) s of) }
        ensures bounded { IfOk result (λ a. IsBounded (type_of a)) }
        ensures none { IsErrOf result SolveFault.NoSolution → (s : ℕ → Term) → (of : ℕ → Class) → IsBounded s
            → IsSolution s of self → ⊥ }
    {
        let State {
            alloc,
            system,
            is_whole,
            ..
        } = self;
        if !is_whole {
            return Err(SolveFault::Memory);
        }
        system.solve(alloc)
    }
}
