//! Local names: the first few are sought one by one, and the others are found by an ordered map, so that nobody can
//! choose names that are slow to find.

ghost use Rattle.std.specs.Prelude.{◌≡◌, ◌<◌, ◌-◌, ◌++◌, ◌∷◌, [], ℕ, List, None, true, if◌then◌else◌, length, take};
ghost use Rattle.std.specs.Prelude.{IfOk, MatchOption, OnErr, OnOk, option_map, reverse};
ghost use Rattle.nesl_types_shared.specs.Term.{Term};
ghost use Rattle.nesl_infer_rules.specs.Newest.{newest_variable, noted};
ghost use Rattle.nesl_infer_rules.specs.Steps.{key_of, scope_at, AreLocalsBelow};
ghost use Rattle.nesl_infer_rules.specs.Typing.{is_name, is_element, local_type, newest_type};
ghost use Rattle.nesl_infer_rules.specs.Typing.{name as name_key};

use crate::state::{Key, Local};
use std::alloc::{AllocError, Global};
use std::collections::BTreeMap;
use std::marker::Model;

/// The number of locals that the map doesn't have: the first few, which are found faster one by one.
const FEW: usize = 8;

/// A local, and what it hides.
#[derive(Clone, Copy)]
struct Entry<'a> {
    local: Local<'a>,
    /// The variable of the newest earlier local of its name, if the map has it.
    hidden: Option<u64>,
}

/// The variable of the newest local of each name. A name that isn't bound any more has none.
type Newest<'a> = BTreeMap<&'a [u8], Option<u64>>;

/// The local names, the newest last.
pub struct Locals<'a> {
    list: Vec<Entry<'a>>,
    newest: Newest<'a>,
}

// By hand, so that no function has to prove how the parts are dropped.
impl<'a> Drop for Locals<'a> {
    fn drop(self) {
        let Locals { list, newest } = self;
        drop((list, newest));
    }
}

impl<'a> Model for Locals<'a> {
    ghost use Rattle.std.specs.Prelude.{List};
    ghost use Rattle.nesl_infer_rules.specs.declared.state.Local.{Local};

    ghost Value = { List Local };

    ghost use Rattle.nesl_infer_rules.specs.Newest.{locals_of, mapped, AreHidden, AreNoted};

    ghost view = { λ l. locals_of l.list.items };

    ghost invariant = { λ l. AreNoted (λ k. k.now) l.newest.entries (mapped l.list.items)
        × AreHidden (mapped l.list.items) };
}

impl Key<'_> {
    fn is_name(&self, name: &[u8]) -> bool
        ensures { result ≡ is_name name.now (key_of self.now) }
    {
        match self {
            Key::Name(own) => name == *own,
            Key::Element => false,
        }
    }

    fn is_element(&self) -> bool
        ensures { result ≡ is_element (key_of self.now) }
    {
        match self {
            Key::Name(_) => false,
            Key::Element => true,
        }
    }
}

/// Makes that variable the newest of the key's name, and gives the one that was.
fn set<'a>(
    newest: &mut Newest<'a>,
    key: Key<'a>,
    variable: Option<u64>,
) -> Result<Option<u64>, AllocError>
    ensures was { IfOk result (λ was. (x : List ℕ) → is_name x (key_of key.entry) ≡ true
        → was ≡ noted (λ k. k.now) x newest.old.entries) }
    ensures set { OnOk result ((x : List ℕ) → noted (λ k. k.now) x newest.new.entries
        ≡ (if is_name x (key_of key.entry) then variable else noted (λ k. k.now) x newest.old.entries)) }
    ensures err { OnErr result (newest.new.entries ≡ newest.old.entries) }
    ensures absent { OnErr result ((x : List ℕ) × (key_of key.entry ≡ name_key x)
        × (noted (λ k. k.now) x newest.old.entries ≡ None)) }
{
    match key {
        Key::Name(name) => match newest.insert(name, variable) {
            Ok(Some(was)) => Ok(was),
            Ok(None) => Ok(None),
            Err(_) => Err(AllocError),
        },
        Key::Element => Ok(None),
    }
}

/// What the map has for a name.
fn noted(newest: &Newest<'_>, name: &[u8]) -> Option<u64>
    ensures { result ≡ noted (λ k. k.now) name.now newest.now.entries }
{
    match newest.get(name) {
        Some(variable) => *variable,
        None => None,
    }
}

/// The variable of the newest of that name among the first few.
fn look_up_few(list: &[Entry<'_>], name: &[u8]) -> Option<u64>
    ensures { result ≡ newest_variable (is_name name.now) (reverse (take 8 list.now)) }
{
    let mut next = FEW.min(list.len());
    while next > 0 {
        next -= 1;
        let local = &list[next].local;
        if local.key.is_name(name) {
            return Some(local.variable);
        }
    }
    None
}

/// The variable of the newest element.
fn newest_element(list: &[Entry<'_>]) -> Option<u64>
    ensures { result ≡ newest_variable is_element (reverse list.now) }
{
    let mut next = list.len();
    while next > 0 {
        next -= 1;
        let local = &list[next].local;
        if local.key.is_element() {
            return Some(local.variable);
        }
    }
    None
}

impl<'a> Locals<'a> {
    /// No names.
    pub fn new(alloc: Global) -> Self
        ensures { result ≡ [] }
    {
        Locals {
            list: Vec::new(alloc),
            newest: BTreeMap::new(alloc),
        }
    }

    /// The number of locals, those that are hidden counted too.
    pub fn len(&self) -> usize
        ensures { result ≡ length self.now }
    {
        self.list.len()
    }

    /// Adds a local, which hides those of its name.
    pub fn push(&mut self, local: Local<'a>) -> Result<(), AllocError>
        ensures { OnOk result (self.new ≡ self.old ++ local.entry ∷ []) }
    {
        if self.list.len() < FEW {
            self.list.push(Entry {
                local,
                hidden: None,
            })?;
            return Ok(());
        }
        self.list.reserve(1)?;
        let hidden = set(&mut self.newest, local.key, Some(local.variable))?;
        self.list.push_reserved(Entry { local, hidden });
        Ok(())
    }

    /// Drops the newest local, if there is one: what it hid is found again.
    fn pop(&mut self)
        ensures { self.new ≡ take (length self.old - 1) self.old }
    {
        if let Some(entry) = self.list.pop() {
            if self.list.len() >= FEW {
                match set(&mut self.newest, entry.local.key, entry.hidden) {
                    Ok(_) => {}
                    Err(_) => unreachable!(),
                }
            }
        }
    }

    /// Keeps the first ones, of that number. What the others hid is found again.
    pub fn truncate(&mut self, len: usize)
        ensures { self.new ≡ take len self.old }
    {
        while self.len() > len {
            self.pop();
        }
    }

    /// The variable of a local name's type: the newest of that name.
    pub fn look_up(&self, name: &[u8]) -> Option<u64>
        ensures found { (s : ℕ → Term) → option_map s result ≡ local_type name.now (scope_at s self.now) }
        ensures below { MatchOption result (Unit {0}) (λ v. (n : ℕ) → AreLocalsBelow n self.now → v < n) }
    {
        match noted(&self.newest, name) {
            Some(variable) => Some(variable),
            None => look_up_few(self.list.as_slice(), name),
        }
    }

    /// The variable of the element's type in the innermost apply-to-each. It is the first local of that one's binders,
    /// so only their names are gone through.
    pub fn look_up_element(&self) -> Option<u64>
        ensures found { (s : ℕ → Term) → option_map s result ≡ newest_type is_element (scope_at s self.now) }
        ensures below { MatchOption result (Unit {0}) (λ v. (n : ℕ) → AreLocalsBelow n self.now → v < n) }
    {
        newest_element(self.list.as_slice())
    }
}
