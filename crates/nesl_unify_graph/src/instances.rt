//! Types that stand for many, with places of a graph for their variables.

use nesl_types_shared::{Bank, Parts, Ty};

/// Where the parts of an instance's type are.
#[derive(Drop)]
pub enum Source {
    /// Among the types that all instances share.
    Shared,
    /// In a type of its own.
    Own(Ty),
}

/// A type with places of a graph for its variables: variable v has the place `fresh[base + v]`. Where the base is past
/// the last place, the type has no variables.
#[derive(Drop)]
pub struct Instance {
    pub source: Source,
    pub base: usize,
}

/// All instances of a graph.
#[derive(Drop)]
pub struct Instances {
    pub shared: Bank,
    pub made: Vec<Instance>,
    pub fresh: Vec<usize>,
}

ghost use Rattle.std.specs.Prelude.{◌≡◌, ◌<◌, ◌+◌, ◌-◌, false, length, slice_index};
ghost use Rattle.nesl_unify_graph.specs.Instances.{parts_in, base_in, place_in};

impl Instances {
    /// The types among which the parts of an instance are.
    pub fn parts(&self, instance: usize) -> Parts<'_>
        requires { instance < length self.now.made.items }
        ensures { result ≡ parts_in self.now instance }
    {
        match &self.made[instance].source {
            Source::Shared => self.shared.parts(),
            Source::Own(ty) => ty.parts(),
        }
    }

    /// Whether an instance may have variables.
    pub(crate) fn has_places(&self, instance: usize) -> bool
        requires { instance < length self.now.made.items }
        ensures { result ≡ false → length self.now.fresh.items - base_in self.now instance ≡ 0 }
    {
        self.made[instance].base < self.fresh.len()
    }

    /// The place of a variable of an instance.
    pub fn place(&self, instance: usize, variable: u64) -> usize
        requires instance { instance < length self.now.made.items }
        requires within { base_in self.now instance + variable < length self.now.fresh.items }
        ensures { result ≡ place_in self.now instance variable }
    {
        let base = self.made[instance].base;
        self.fresh[base + variable as usize]
    }
}
