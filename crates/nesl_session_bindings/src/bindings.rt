//! The top-level names of a session.

ghost use Rattle.std.specs.Prelude.{◌≡◌, ◌<◌, ◌≤◌, ◌+◌, ◌++◌, ◌^◌, ℕ, [], None, Option, IsTrue, IfOk, OnOk};
ghost use Rattle.std.specs.Prelude.{OnErr, codes, length, map};
ghost use Rattle.std.specs.Prelude.{nat_le, slice_get};
ghost use Rattle.std.specs.Option.{option_map};
ghost use Rattle.nesl_types_shared.specs.Term.{Term};
ghost use Rattle.nesl_values.specs.View.{tree_of as value_tree};
ghost use Rattle.nesl_syntax_tree.specs.Trees.{PatternTree, SignatureTree, Tree, TypeTree};
ghost use Rattle.nesl_syntax_tree.specs.Views.{pattern_tree, signature_tree, tree_of, type_tree};
ghost use Rattle.nesl_builtins.specs.FunctionTypes.{FunctionType, function_type};
ghost use Rattle.nesl_infer.specs.Verdicts.{AnswersVerdict, IsContentBy, IsFunctionBy, IsTypeBy, typed};
ghost use Rattle.nesl_eval_meaning.specs.Names.{outside};
ghost use Rattle.nesl_eval_meaning.specs.Out.{stuck};
ghost use Rattle.nesl_eval_meaning.specs.Outcome.{out};
ghost use Rattle.nesl_eval_top_level.specs.Stored as stored;
ghost use Rattle.nesl_reply.specs.Replies.{report_of, report_text};
ghost use Rattle.nesl_session_bindings.specs.Others.{other_elements};
ghost use Rattle.nesl_session_bindings.specs.Known.{datatype_count, datatypes_of, environment, known, put_binding};
ghost use Rattle.nesl_session_bindings.specs.Meanings.{datatype, elements_in, elements_of, function};
ghost use Rattle.nesl_session_bindings.specs.Meanings.{nodes_in, variable};
ghost use Rattle.nesl_session_bindings.specs.Redefinition.{RefusesDefinition, a_datatype, a_function, a_variable};
ghost use Rattle.nesl_session_bindings.specs.Stored.{IsComputed, bindings_of, kind_of};

use crate::kind::Kind;
use crate::refusal::Refusal;
use crate::{nodes, others, redefinition};
use nesl_eval_sound::laws::inferred_lines_keep_types;
use nesl_eval_top_level::{Env, Payload};
use nesl_infer::InferFault;
use nesl_reply::Reply;
use nesl_syntax_tree::tree::{Exp, Pattern, Signature, TypeExp};
use nesl_types::{Scheme, Top, Ty};
use nesl_values::Value;
use std::alloc::{AllocError, Allocator, Global};
use std::marker::Model;

/// The top-level names of a session in order of first definition, with their meanings, which are well typed.
pub struct Bindings {
    env: Env,
    elements: u64,
}

// Written by hand, so that no crate that uses this one has to prove how the parts are dropped.
impl Drop for Bindings {
    fn drop(self) {
        let Bindings { env, elements: _ } = self;
        drop(env);
    }
}

impl Model for Bindings {
    ghost use Rattle.std.specs.Prelude.{ℕ, List};
    ghost use Rattle.nesl_types.specs.declared.bindings.Top.{Top};
    ghost use Rattle.nesl_eval_top_level.specs.declared.env.Payload.{Payload};
    ghost use Rattle.std.specs.Coded.{codes};
    ghost use Rattle.nesl_types_shared.specs.contracts.types.Ty as ty;
    ghost use Rattle.nesl_eval_top_level.specs.contracts.env.Payload as payload;

    ghost Value = { List (List ℕ × Top × Payload) };

    ghost coded = { Prim.hlevel (codes, ty.the_row.coded, payload.the_row.coded) };

    ghost use Rattle.nesl_session_bindings.specs.Stored.{AreKept};

    ghost view = { λ b. b.env };

    ghost invariant = { λ b. AreKept b.env b.elements };
}

impl Bindings {
    /// No names.
    pub fn new(alloc: Global) -> Self
        ensures { bindings_of result ≡ [] }
    {
        Bindings {
            env: Env::new(alloc),
            elements: 0,
        }
    }

    /// How many names there are.
    pub fn len(&self) -> usize
        ensures { result ≡ length (bindings_of self.now) }
    {
        self.env.len()
    }

    /// The name at a place in the order of first definition, counted from 0.
    pub fn name_at(&self, place: usize) -> Option<&[u8]>
        ensures { option_map (λ x. x.now) result ≡ option_map (λ b. b.name) (slice_get (bindings_of self.now) place) }
    {
        match self.env.at(place) {
            Some((name, _, _)) => Some(name),
            None => None,
        }
    }

    /// The number of elements of all names together: nodes of values, of function bodies, and of datatypes' types.
    pub fn elements(&self) -> u64
        ensures { result ≡ elements_of (bindings_of self.now) }
    {
        self.elements
    }

    /// The tag that the next datatype gets.
    pub fn next_tag(&self) -> u64
        ensures { result ≡ datatype_count (bindings_of self.now) }
    {
        redefinition::datatypes(&self.env)
    }

    /// What the names mean, as evaluation needs it.
    pub fn environment(&self) -> &Env
        ensures { stored.environment result.now ≡ environment (bindings_of self.now) }
    {
        &self.env
    }

    /// The type of an expression.
    pub fn infer_exp(&self, alloc: Global, exp: &Exp) -> Result<Ty, InferFault>
        ensures { AnswersVerdict (λ t. t) (IsTypeBy (known (bindings_of self.now)) (tree_of exp.now)) result }
    {
        inferred_lines_keep_types::<Payload>();
        nesl_infer::infer_exp(alloc, self.env.context(), exp)
    }

    /// The principal scheme of a function, or why it has none.
    pub fn infer_function(
        &self,
        alloc: Global,
        name: &[u8],
        pattern: &Pattern,
        signature: &Option<Signature>,
        body: &Exp,
    ) -> Result<Scheme, InferFault>
        ensures { AnswersVerdict function_type
            (IsFunctionBy (known (bindings_of self.now)) name.now (pattern_tree pattern.now)
            (option_map signature_tree signature.now) (tree_of body.now)) result }
    {
        inferred_lines_keep_types::<Payload>();
        nesl_infer::infer_function(alloc, self.env.context(), name, pattern, signature, body)
    }

    /// The type that the records of a written datatype hold, or why there is none.
    pub fn infer_datatype(&self, alloc: Global, written: &TypeExp) -> Result<Ty, InferFault>
        ensures { AnswersVerdict (λ t. t) (IsContentBy (known (bindings_of self.now)) (type_tree written.now)) result }
    {
        nesl_infer::infer_datatype(alloc, self.env.context(), written)
    }

    /// Why the name may not be defined so, or `None` if it may. A change of type is checked first.
    pub fn refusal(&self, name: &[u8], kind: Kind<'_>) -> Option<Refusal>
        ensures { RefusesDefinition (bindings_of self.now) name.now (kind_of kind.entry) result }
    {
        let there = self.env.get(name);
        if redefinition::is_retyped(&self.env, name, there, kind) {
            return Some(Refusal::Retype);
        }
        if redefinition::is_taken(&self.env, name, there, kind) {
            return Some(Refusal::Taken);
        }
        None
    }

    /// The number of elements of all names but this one.
    fn other_elements(&self, name: &[u8]) -> u64
        ensures { result ≡ other_elements name.now (bindings_of self.now) }
    {
        others::other_elements(&self.env, self.elements, name)
    }

    // Whether all names have at most `limit` elements once a further one has this value.
    fn has_room_for_value<A: Allocator>(&self, value: &Value<A>, limit: u64) -> bool
        ensures { IsTrue result → (t : Term)
            → elements_of (bindings_of self.now) + elements_in (variable t (value_tree value.now)) ≤ limit }
    {
        let Some(room) = limit.checked_sub(self.elements()) else {
            return false;
        };
        value.nodes() <= room
    }

    // Whether all names have at most `limit` elements once a further one has this body.
    fn has_room_for_body(&self, body: &Exp, limit: u64) -> bool
        ensures { IsTrue result → elements_of (bindings_of self.now) + nodes_in (tree_of body.now) ≤ limit }
    {
        let Some(room) = limit.checked_sub(self.elements()) else {
            return false;
        };
        match nodes::left_after(body, room) {
            Some(_) => true,
            None => false,
        }
    }

    /// Whether all names have at most `limit` elements once this one is a variable with this value.
    pub fn fits_variable<A: Allocator>(&self, name: &[u8], value: &Value<A>, limit: u64) -> bool
        ensures { (t : Term) → result ≡ nat_le (elements_of
            (put_binding name.now (variable t (value_tree value.now)) (bindings_of self.now))) limit }
    {
        if self.has_room_for_value(value, limit) {
            return true;
        }
        match limit.checked_sub(self.other_elements(name)) {
            Some(room) => value.nodes() <= room,
            None => false,
        }
    }

    /// Whether all names have at most `limit` elements once this one is a function with this body.
    pub fn fits_function(&self, name: &[u8], body: &Exp, limit: u64) -> bool
        ensures { (f : FunctionType) (p : PatternTree)
            → result
            ≡ nat_le (elements_of (put_binding name.now (function f p (tree_of body.now)) (bindings_of self.now)))
            limit }
    {
        if self.has_room_for_body(body, limit) {
            return true;
        }
        match limit.checked_sub(self.other_elements(name)) {
            Some(room) => nodes::left_after(body, room).is_some(),
            None => false,
        }
    }

    /// Whether all names have at most `limit` elements once this one is a datatype whose records hold this type.
    pub fn fits_datatype(&self, name: &[u8], content: &Ty, limit: u64) -> bool
        ensures { (tag : ℕ) → result ≡ nat_le (elements_of
            (put_binding name.now (datatype tag content.now) (bindings_of self.now))) limit }
    {
        match limit.checked_sub(self.other_elements(name)) {
            Some(room) => content.room_left(room).is_some(),
            None => false,
        }
    }

    /// The text of a reply, with its line end.
    pub fn reply_text(&self, alloc: Global, reply: &Reply<'_>) -> Result<Vec<u8>, AllocError>
        ensures { IfOk result (λ text. text.items ≡ report_text (datatypes_of (bindings_of self.now))
            (map (λ b. b.name) (bindings_of self.now)) (report_of reply.now) ++ codes "\n") }
    {
        nesl_reply::reply_text(alloc, reply, self.env.context())
    }

    /// A law: an expression that has a type is never stuck.
    pub fn typed_never_stuck(&self)
        ensures { (e : Tree) (t : Term) → IsTypeBy (known (bindings_of self.now)) e (typed t) → (n : ℕ)
            → out n (environment (bindings_of self.now)) (outside []) e ≡ stuck → ⊥ }
    {
        inferred_lines_keep_types::<Payload>();
        let _env = &self.env;
    }

    /// Makes the name a variable with the type of an expression, and with the value to which the expression evaluates.
    pub fn set_variable(
        &mut self,
        alloc: Global,
        name: &[u8],
        ty: Ty,
        value: Value,
    ) -> Result<(), AllocError>
        requires computed { IsComputed (bindings_of self.old) ty (value_tree value) }
        requires free { RefusesDefinition (bindings_of self.old) name.now (a_variable ty) None }
        requires room { elements_of (put_binding name.now (variable ty (value_tree value)) (bindings_of self.old))
            < 2 ^ 64 }
        ensures ok { OnOk result (bindings_of self.new
            ≡ put_binding name.now (variable ty (value_tree value)) (bindings_of self.old)) }
        ensures err { OnErr result (self.new ≡ self.old) }
    {
        inferred_lines_keep_types::<Payload>();
        let others = others::other_elements(&self.env, self.elements, name);
        let elements = others + value.nodes();
        self.env
            .set(alloc, name, Top::Variable(ty), Payload::Variable(value))?;
        self.elements = elements;
        Ok(())
    }

    /// Makes the name a function with its principal scheme.
    pub fn set_function(
        &mut self,
        alloc: Global,
        name: &[u8],
        scheme: Scheme,
        pattern: Pattern,
        body: Exp,
    ) -> Result<(), AllocError>
        requires typed { (g : Option SignatureTree) × IsFunctionBy (known (bindings_of self.old)) name.now
            (pattern_tree pattern) g
            (tree_of body) (typed (function_type scheme)) }
        requires free { RefusesDefinition (bindings_of self.old) name.now (a_function (function_type scheme)) None }
        requires room { elements_of (put_binding name.now (function (function_type scheme) (pattern_tree pattern)
            (tree_of body))
            (bindings_of self.old)) < 2 ^ 64 }
        ensures ok { OnOk result (bindings_of self.new
            ≡ put_binding name.now (function (function_type scheme) (pattern_tree pattern) (tree_of body))
            (bindings_of self.old)) }
        ensures err { OnErr result (self.new ≡ self.old) }
    {
        inferred_lines_keep_types::<Payload>();
        let others = others::other_elements(&self.env, self.elements, name);
        let elements = others + nodes::nodes(&body);
        let payload = Payload::Function { pattern, body };
        self.env.set(alloc, name, Top::Function(scheme), payload)?;
        self.elements = elements;
        Ok(())
    }

    /// Makes the name a datatype with the next tag.
    pub fn set_datatype(
        &mut self,
        alloc: Global,
        name: &[u8],
        content: Ty,
    ) -> Result<(), AllocError>
        requires written { (a : TypeTree) × IsContentBy (known (bindings_of self.old)) a (typed content) }
        requires free { RefusesDefinition (bindings_of self.old) name.now a_datatype None }
        requires room { elements_of (put_binding name.now (datatype (datatype_count (bindings_of self.old)) content)
            (bindings_of self.old))
            < 2 ^ 64 }
        ensures ok { OnOk result (bindings_of self.new
            ≡ put_binding name.now (datatype (datatype_count (bindings_of self.old)) content) (bindings_of self.old)) }
        ensures err { OnErr result (self.new ≡ self.old) }
    {
        inferred_lines_keep_types::<Payload>();
        let others = others::other_elements(&self.env, self.elements, name);
        let elements = others + others::nodes_of(&content);
        let tag = redefinition::datatypes(&self.env);
        let payload = Payload::Datatype;
        self.env
            .set(alloc, name, Top::Datatype(tag, content), payload)?;
        self.elements = elements;
        Ok(())
    }
}
