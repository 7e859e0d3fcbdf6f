//! The names of the top level, with their code.

ghost use Rattle.std.specs.Prelude.{◌≡◌, ◌<◌, ℕ, IfOk, OnOk, OnErr, [], length, slice_get, unwrap_or};
ghost use Rattle.std.specs.Prelude.{vec_len, vec_capacity, IfSome, List, Some, None, set};
ghost use Rattle.std.specs.Option.{option_map};
ghost use Rattle.nesl_syntax_tree.specs.Views.{tree_of};
ghost use Rattle.nesl_eval_meaning.specs.Names.{Name};
ghost use Rattle.nesl_eval_code.specs.Means.{Means, IsTableOf, names_of, place_of};
ghost use Rattle.nesl_eval_code.specs.Run.{slot_at, nothing_slot};
ghost use Rattle.nesl_eval_top_level.specs.Stored.{names_in, environment, slot_of, HasCode, with_place, put};
ghost use Rattle.nesl_eval_nodes.specs.Holds.{held_slot};
ghost use Rattle.nesl_eval_top_level.specs.TopLevels.{table_in, bodies_in};
ghost use Rattle.nesl_eval_top_level.specs.Laid.{IsLaid};
ghost use Rattle.nesl_eval_ops.specs.View.{HasBodies};

use nesl_eval_code::{Code, Places, code_of_body, code_of_expression};
use nesl_eval_nodes::held::Held;
use nesl_eval_ops::{Ops, body_ops};
use nesl_syntax_tree::tree::{Exp, Pattern};
use nesl_types::{Context, NameOrder, Top};
use nesl_values::Value;
use std::alloc::{AllocError, Global};
use std::marker::Model;

/// What a top-level name has besides its type.
#[derive(Drop)]
pub enum Payload {
    /// A variable's value.
    Variable(Value),
    /// A function's parameter and body.
    Function { pattern: Pattern, body: Exp },
    /// Nothing: a datatype's tag is kept with its type.
    Datatype,
}

/// The top-level names in order of first definition, each with its type and its payload.
pub struct Env {
    context: Context<Payload>,
    /// The code of each name's body, by place. A name that is no function has none.
    prepared: Vec<Option<Code>>,
    /// The operations of these bodies, by place.
    bodies: Vec<Option<Ops>>,
}

// Written by hand, so that no crate that uses this one has to prove how the parts are dropped.
impl Drop for Env {
    fn drop(self) {
        let Env {
            context,
            prepared,
            bodies,
        } = self;
        drop((context, prepared, bodies));
    }
}

impl Model for Env {
    ghost use Rattle.std.specs.Prelude.{ℕ, List, map};
    ghost use Rattle.nesl_types.specs.declared.bindings.Top.{Top};
    ghost use Rattle.nesl_eval_top_level.specs.declared.env.Payload.{Payload};
    ghost use Rattle.std.specs.Coded.{codes};
    ghost use Rattle.nesl_types_shared.specs.contracts.types.Ty as ty;
    ghost use Rattle.nesl_eval_top_level.specs.contracts.env.Payload as payload;

    ghost Value = { List (List ℕ × Top × Payload) };

    ghost coded = { Prim.hlevel (codes, ty.the_row.coded, payload.the_row.coded) };

    ghost view = { λ e. e.context };

    ghost use Rattle.nesl_eval_top_level.specs.Stored.{AreStored};
    ghost use Rattle.nesl_eval_top_level.specs.Laid.{AreLaid};

    ghost invariant = { λ e. AreStored e.context e.prepared.items × AreLaid e.prepared.items e.bodies.items };
}

/// The top level as an evaluation sees it: what each place holds, and the place of each name.
#[derive(Clone, Copy)]
pub struct TopLevel<'a> {
    context: &'a Context<Payload>,
    prepared: &'a [Option<Code>],
    bodies: &'a [Option<Ops>],
}

impl<'a> TopLevel<'a> {
    /// What a place holds, counted from 0.
    pub fn held(&self, place: usize) -> Held<'a, Global>
        ensures { held_slot result ≡ unwrap_or (slot_at (table_in self.now) place) nothing_slot }
    {
        let Some((_, top, payload)) = self.context.at(place) else {
            return Held::Nothing;
        };
        let Some(code) = self.prepared.get(place) else {
            return Held::Nothing;
        };
        held_with(top, payload, code)
    }

    /// The place of a name.
    pub fn place_of(&self, name: &[u8]) -> Option<usize>
        ensures { result ≡ place_of (names_of (table_in self.now)) name.now }
    {
        self.context.names().place_of(name)
    }

    /// The operations of the bodies, by place. A name that is no function has none.
    pub fn bodies(&self) -> &'a [Option<Ops>]
        ensures { result.now ≡ bodies_in self.now }
    {
        self.bodies
    }
}

/// What a place holds, by the name's type, its payload, and the code of its body.
fn held_with<'a>(top: &'a Top, payload: &'a Payload, code: &'a Option<Code>) -> Held<'a, Global>
    ensures { held_slot result ≡ slot_of top.now payload.now code.now }
{
    match payload {
        Payload::Variable(value) => Held::Variable(value),
        Payload::Function { .. } => match code {
            Some(code) => Held::Function(code),
            None => Held::Nothing,
        },
        Payload::Datatype => match top {
            Top::Datatype(tag, _) => Held::Datatype(*tag),
            _ => Held::Nothing,
        },
    }
}

/// The place of a name that is bound already and becomes no function, so that it has no code.
fn place_without_code(place: Option<usize>, payload: &Payload) -> Option<usize>
    ensures same { IfSome result (λ there. place ≡ Some there) }
    ensures code { IfSome result (λ _. (names : List Name) → HasCode names payload.now None) }
{
    let there = place?;
    match payload {
        Payload::Function { .. } => None,
        _ => Some(there),
    }
}

/// The code of a function's body, in which the function's own name has its place already. A name that is no function
/// has no code.
#[inline(never)]
fn code_of_payload(
    alloc: Global,
    names: &NameOrder,
    name: &[u8],
    place: Option<usize>,
    payload: &Payload,
) -> Result<Option<Code>, AllocError>
    requires { place ≡ place_of names.now name.now }
    ensures { IfOk result (HasCode (with_place name.now names.now) payload.now) }
{
    match payload {
        Payload::Function { pattern, body } => {
            let own = match place {
                Some(_) => None,
                None => Some(name),
            };
            let places = Places { names, own };
            let code = code_of_body(alloc, &places, pattern, body)?;
            Ok(Some(code))
        }
        _ => Ok(None),
    }
}

/// The operations of a body.
#[inline(never)]
fn body_of(alloc: Global, code: &Option<Code>) -> Result<Option<Ops>, AllocError>
    ensures { IfOk result (IsLaid code.now) }
{
    match code {
        Some(code) => Ok(Some(body_ops(alloc, code)?)),
        None => Ok(None),
    }
}

/// Makes room for the code and the operations of one name more.
#[inline(never)]
fn reserve(codes: &mut Vec<Option<Code>>, bodies: &mut Vec<Option<Ops>>) -> Result<(), AllocError>
    ensures codes { codes.new.items ≡ codes.old.items }
    ensures bodies { bodies.new.items ≡ bodies.old.items }
    ensures code_room { OnOk result (vec_len codes.new < vec_capacity codes.new) }
    ensures body_room { OnOk result (vec_len bodies.new < vec_capacity bodies.new) }
{
    codes.reserve(1)?;
    bodies.reserve(1)?;
    Ok(())
}

/// Puts the item at this place, or last if there is no place. There is room for one more.
fn store<X: Drop>(items: &mut Vec<X>, place: Option<usize>, item: X)
    requires { vec_len items.old < vec_capacity items.old }
    ensures { items.new.items ≡ put place item items.old.items }
{
    match place {
        Some(place) => {
            if let Some(there) = items.get_mut(place) {
                *there = item;
            }
        }
        None => items.push_reserved(item),
    }
}

/// Drops what is at a place.
fn clear<X: Drop>(items: &mut Vec<Option<X>>, place: usize)
    ensures { items.new.items ≡ set items.old.items place None }
{
    if let Some(item) = items.get_mut(place) {
        if item.is_some() {
            *item = None;
        }
    }
}

impl Env {
    ghost use Rattle.nesl_types.specs.Names.{found, with_name, with_name_at};

    /// No names.
    pub fn new(alloc: Global) -> Self
        ensures { result ≡ [] }
    {
        Env {
            context: Context::new(alloc),
            prepared: Vec::new(alloc),
            bodies: Vec::new(alloc),
        }
    }

    /// The names with their types, as typing needs them.
    pub fn context(&self) -> &Context<Payload>
        ensures { result.now ≡ self.now }
    {
        &self.context
    }

    /// The type of a name, and its payload.
    pub fn get(&self, name: &[u8]) -> Option<(&Top, &Payload)>
        ensures { option_map (λ b. (b.0.now, b.1.now)) result ≡ found name.now self.now }
    {
        self.context.get(name)
    }

    /// The name at a place in the order of first definition, its type, and its payload.
    pub fn at(&self, place: usize) -> Option<(&[u8], &Top, &Payload)>
        ensures { option_map (λ b. (b.0.now, b.1.now, b.2.now)) result ≡ slice_get self.now place }
    {
        self.context.at(place)
    }

    /// How many names there are.
    pub fn len(&self) -> usize
        ensures { result ≡ length self.now }
    {
        self.context.len()
    }

    /// The top level as an evaluation sees it. The code at a function's place means its body.
    pub fn top_level(&self) -> TopLevel<'_>
        ensures names { names_of (table_in result) ≡ names_in self.now }
        ensures stands { (n : ℕ) → IsTableOf n (environment self.now) (table_in result) }
        ensures bodies { HasBodies (table_in result) (bodies_in result) }
    {
        TopLevel {
            context: &self.context,
            prepared: self.prepared.as_slice(),
            bodies: self.bodies.as_slice(),
        }
    }

    /// Binds the name. A name that is bound already keeps its place, and a new one goes last. A function's body is
    /// prepared and laid out once, here. In it, the function's own name has its place already.
    pub fn set(
        &mut self,
        alloc: Global,
        name: &[u8],
        top: Top,
        payload: Payload,
    ) -> Result<(), AllocError>
        ensures ok { OnOk result (self.new ≡ with_name name.now top payload self.old) }
        ensures err { OnErr result (self.new ≡ self.old) }
    {
        let place = self.context.names().place_of(name);
        if let Some(there) = place_without_code(place, &payload) {
            return self.set_at(alloc, there, top, payload);
        }
        self.set_prepared(alloc, name, place, top, payload)
    }

    // Binds the name at this place, which gets no code.
    #[inline(never)]
    fn set_at(
        &mut self,
        alloc: Global,
        there: usize,
        top: Top,
        payload: Payload,
    ) -> Result<(), AllocError>
        requires { (names : List Name) → HasCode names payload None }
        ensures ok { OnOk result (self.new ≡ with_name_at there top payload self.old) }
        ensures err { OnErr result (self.new ≡ self.old) }
    {
        self.context.replace(alloc, there, top, payload)?;
        clear(&mut self.prepared, there);
        clear(&mut self.bodies, there);
        Ok(())
    }

    // Binds the name, and prepares a function's body. `place` is where the name is, if it is bound already.
    #[inline(never)]
    fn set_prepared(
        &mut self,
        alloc: Global,
        name: &[u8],
        place: Option<usize>,
        top: Top,
        payload: Payload,
    ) -> Result<(), AllocError>
        requires { place ≡ place_of (names_in self.old) name.now }
        ensures ok { OnOk result (self.new ≡ with_name name.now top payload self.old) }
        ensures err { OnErr result (self.new ≡ self.old) }
    {
        reserve(&mut self.prepared, &mut self.bodies)?;
        let code = code_of_payload(alloc, self.context.names(), name, place, &payload)?;
        let body = body_of(alloc, &code)?;
        self.context.set(alloc, name, top, payload)?;
        store(&mut self.prepared, place, code);
        store(&mut self.bodies, place, body);
        Ok(())
    }
}

/// The code of an expression of the top level.
pub fn prepare(alloc: Global, env: &Env, exp: &Exp) -> Result<Code, AllocError>
    ensures { IfOk result (λ c. Means (names_in env.now) [] c (tree_of exp.now)) }
{
    let places = Places {
        names: env.context.names(),
        own: None,
    };
    code_of_expression(alloc, &places, exp)
}
