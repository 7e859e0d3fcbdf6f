//! The local names where an expression is.

ghost use Rattle.std.specs.Prelude.{◌≡◌, ◌≤◌, ◌∷◌, ◌-◌, [], ℕ, List, drop, length, OnOk};
ghost use Rattle.std.specs.List.{list_any};
ghost use Rattle.std.specs.Str.{bytes_eq};
ghost use Rattle.nesl_infer_names.specs.Scoping.{newest_first, occurrences, count};

use std::alloc::{AllocError, Global};
use std::collections::BTreeMap;

/// The local names, with how often each is bound, so that a name is found in time logarithmic in their number.
/// Names are ordered and not hashed, so that nobody can choose names that are slow to find.
pub struct Scope {
    names: Vec<Vec<u8>>,
    counts: BTreeMap<Vec<u8>, u64>,
    ghost counted: { (x : List ℕ) → count (λ k. k.items) x counts.entries
        ≡ occurrences x (newest_first (λ k. k.items) names.items) },
}

// By hand, so that no function has to prove how the parts are dropped.
impl Drop for Scope {
    fn drop(self) {
        let Scope { names, counts } = self;
        drop((names, counts));
    }
}

/// How often the name is bound.
fn count(counts: &BTreeMap<Vec<u8>, u64>, name: &[u8]) -> u64
    ensures { result ≡ count (λ k. k.items) name.now counts.now.entries }
{
    match counts.get(name) {
        Some(count) => *count,
        None => 0,
    }
}

impl Scope {
    ghost use Rattle.nesl_infer_names.specs.Scopes.{locals};

    /// No names.
    pub fn new(alloc: Global) -> Self
        ensures { locals result ≡ [] }
    {
        Scope {
            names: Vec::new(alloc),
            counts: BTreeMap::new(alloc),
        }
    }

    /// How often names are bound, one that hides another counted too.
    pub fn len(&self) -> usize
        ensures { result ≡ length (locals self.now) }
    {
        self.names.len()
    }

    /// Whether the name is a local one.
    pub fn has(&self, name: &[u8]) -> bool
        ensures { result ≡ list_any (bytes_eq name.now) (locals self.now) }
    {
        count(&self.counts, name) > 0
    }

    /// Binds a name.
    pub fn push(&mut self, alloc: Global, name: &[u8]) -> Result<(), AllocError>
        ensures { OnOk result (locals self.new ≡ name.now ∷ locals self.old) }
    {
        let key = Vec::from_slice(alloc, name)?;
        let copy = Vec::from_slice(alloc, name)?;
        let count = count(&self.counts, name);
        self.names.push(copy)?;
        let Ok(_) = self.counts.insert(key, count + 1) else {
            self.names.pop();
            return Err(AllocError);
        };
        Ok(())
    }

    /// Takes back the name that was bound last.
    fn pop(&mut self)
        ensures { locals self.new ≡ drop 1 (locals self.old) }
    {
        match self.names.pop() {
            Some(name) => {
                let count = count(&self.counts, name.as_slice());
                match self.counts.insert(name, count - 1) {
                    Ok(_) => {}
                    Err(_) => unreachable!(),
                }
            }
            None => {}
        }
    }

    /// Takes back the names that were bound since there were this many.
    pub fn truncate(&mut self, len: usize)
        requires { len ≤ length (locals self.old) }
        ensures { locals self.new ≡ drop (length (locals self.old) - len) (locals self.old) }
    {
        for _place in len..self.len() {
            self.pop();
        }
    }
}
