//! The rounds of an apply-to-each.
ghost use Rattle.std.specs.Prelude.{◌≡◌, ℕ, ◌+◌, ◌∷◌, ◌++◌, ◌⊎◌, [], Some, None};
ghost use Rattle.std.specs.Prelude.{MatchResult, map, slice_get};
ghost use Rattle.std.specs.declared.vec.Vec.{Vec};
ghost use Rattle.nesl_values.specs.View.{tree_of};
ghost use Rattle.nesl_eval_meaning.specs.Out.{stuck, and_then};
ghost use Rattle.nesl_eval_code.specs.Run.{Table};
ghost use Rattle.nesl_eval_code.specs.Block.{Block, finish, each, filtered};
ghost use Rattle.nesl_eval_code.specs.Exec.{exec, at_places};
ghost use Rattle.nesl_eval_ops.specs.View.{block_of, body_block};
ghost use Rattle.nesl_eval_rounds.specs.Rounds.{chosen_places, between};
ghost use Rattle.nesl_eval_machine.specs.State.{Fits, in_rounds, unwound};
ghost use Rattle.nesl_eval_machine.specs.State.{frames_of, slots_of, stack_of, env_of, local_of, left_with, left_at};
ghost use Rattle.nesl_eval_machine.specs.Steps.{Steps, Stops, Rests};

use crate::blocks::keep_frame;
use crate::columns::place_alone;
use crate::hand::cut;
use crate::moves::take_off;
use crate::state::{Frame, Machine, Purpose};
use nesl_eval_nodes::held::Tops;
use nesl_eval_nodes::meter::Stop;
use nesl_eval_nodes::nodes::{finish, keep, length_of_all};
use nesl_eval_ops::{Body, Ops};
use nesl_eval_rounds::{Chosen, Round, depth_after, gather, push_row};
use nesl_lex::token::Span;
use nesl_values::Value;
use nesl_values_builder::SequenceBuilder;
use std::alloc::Allocator;

/// Where an apply-to-each is, and how many sequences it goes over.
#[derive(Clone, Copy)]
pub(crate) struct EachNode {
    pub span: Span,
    pub count: usize,
}

// The rounds of an apply-to-each: that of this block, and that of the body that comes after it if it is a filter.
#[derive(Clone, Copy)]
struct Rounds<'a> {
    block: &'a Body,
    body: Option<&'a Body>,
}

/// What a round sees again after a turn: its local names, which have the slots from `base` to `len`, and its levels.
/// After the round comes what is next.
#[derive(Clone, Copy)]
pub(crate) struct Outer<'a> {
    pub next: &'a Ops,
    pub base: usize,
    pub len: usize,
    pub levels: u32,
}

#[inline(always)]
fn in_box<'a, A: Allocator>(round: Round<'a, A>, alloc: A) -> Result<Box<Round<'a, A>, A>, Stop>
    ensures { MatchResult result (λ b. b.value ≡ round.entry) (λ e. e ≡ Stop.Memory) }
{
    match Box::new(alloc, round) {
        Ok(round) => Ok(round),
        Err(_) => Err(Stop::Memory),
    }
}

#[inline(always)]
fn put_at<'a, A: Allocator + Copy>(round: &mut Box<Round<'a, A>, A>, place: usize)
    ensures { round.new.value ≡ record round.old.value { place = place } }
{
    round.place = place;
}

impl<'a, A: Allocator + Copy> Machine<'a, A> {
    /// A body at all places of the sequences on top.
    #[inline(always)]
    pub(crate) fn each<T: Tops<A>>(
        &mut self,
        tops: &T,
        node: EachNode,
        body: &'a Body,
        next: &'a Ops,
    ) -> Result<(), Stop>
        ensures { let t = T.table tops.now in Fits t self.old
            → Steps t self.old result self.new (block_of self.new.code.now)
            (left_at t self.old (each node.span node.count (body_block body.now) (block_of next.now))) }
    {
        self.begin_each(tops, node, body, next)
    }

    // It is not inlined, so that its result takes no room in the loop's stack frame.
    #[inline(never)]
    fn begin_each<T: Tops<A>>(
        &mut self,
        tops: &T,
        node: EachNode,
        body: &'a Body,
        next: &'a Ops,
    ) -> Result<(), Stop>
        ensures { let t = T.table tops.now in Fits t self.old
            → Steps t self.old result self.new (block_of self.new.code.now)
            (left_at t self.old (each node.span node.count (body_block body.now) (block_of next.now))) }
    {
        let rounds = Rounds {
            block: body,
            body: None,
        };
        match take_off(&mut self.stack, node.count)? {
            Some(sources) => self.begin(tops, sources, node.span, rounds, next),
            None => Err(Stop::Stuck),
        }
    }

    /// A body at the places of the sequences on top where a filter holds.
    #[inline(always)]
    pub(crate) fn filtered<T: Tops<A>>(
        &mut self,
        tops: &T,
        node: EachNode,
        body: &'a Body,
        filter: &'a Body,
        next: &'a Ops,
    ) -> Result<(), Stop>
        ensures { let t = T.table tops.now in Fits t self.old
            → Steps t self.old result self.new (block_of self.new.code.now) (left_at t self.old
            (filtered node.span node.count (body_block body.now) (body_block filter.now) (block_of next.now))) }
    {
        self.begin_filtered(tops, node, body, filter, next)
    }

    // It is not inlined, so that its result takes no room in the loop's stack frame.
    #[inline(never)]
    fn begin_filtered<T: Tops<A>>(
        &mut self,
        tops: &T,
        node: EachNode,
        body: &'a Body,
        filter: &'a Body,
        next: &'a Ops,
    ) -> Result<(), Stop>
        ensures { let t = T.table tops.now in Fits t self.old
            → Steps t self.old result self.new (block_of self.new.code.now) (left_at t self.old
            (filtered node.span node.count (body_block body.now) (body_block filter.now) (block_of next.now))) }
    {
        let rounds = Rounds {
            block: filter,
            body: Some(body),
        };
        match take_off(&mut self.stack, node.count)? {
            Some(sources) => self.begin(tops, sources, node.span, rounds, next),
            None => Err(Stop::Stuck),
        }
    }

    // Begins with the first round at all places of sequences.
    #[inline(always)]
    fn begin<T: Tops<A>>(
        &mut self,
        tops: &T,
        sources: Vec<Value<A>, A>,
        span: Span,
        rounds: Rounds<'a>,
        next: &'a Ops,
    ) -> Result<(), Stop>
        ensures { let t = T.table tops.now in let m = self.old in let r = rounds.entry in
            let vs = map tree_of sources.items in Fits t m
            → Steps t m result self.new (block_of self.new.code.now) (left_with t m
            (and_then (at_places span vs (in_rounds t m.levels (env_of m) vs (body_block r.block.now) r.body))
            (λ v. exec t m.levels (env_of m) (block_of next.now) (v ∷ local_of m)))) }
    {
        let round = self.first_round(sources, span, rounds.block, rounds.body)?;
        self.go_round(tops, round, next)
    }

    /// The first round at all places of sequences, before its first turn: that of a filter, if there is a body that
    /// comes after it.
    #[inline(always)]
    pub fn first_round(
        &self,
        sources: Vec<Value<A>, A>,
        span: Span,
        block: &'a Body,
        body: Option<&'a Body>,
    ) -> Result<Box<Round<'a, A>, A>, Stop>
        ensures { (t : Table) (next : Block) → let m = self.now in let vs = map tree_of sources.items in
            let o = left_with t m
            (and_then (at_places span vs (in_rounds t m.levels (env_of m) vs (body_block block.now) body.entry))
            (λ v. exec t m.levels (env_of m) next (v ∷ local_of m))) in
            MatchResult result (λ round. (o ≡ stuck) ⊎ (o ≡ unwound t (frames_of m) (slots_of m) (stack_of m)
            (between t m.levels next (env_of m) (local_of m) round.value)))
            (λ e. Stops (frames_of m) m.meter.fuel e m.meter.fuel o) }
    {
        let count = length_of_all(&sources, span)?;
        let round = Round {
            block,
            body,
            sources,
            chosen: Chosen::All(count),
            turns: 0,
            place: 0,
            start: self.meter.depth(),
            most: 0,
            kept: Vec::new(self.alloc),
            values: SequenceBuilder::with_room(self.alloc, count),
        };
        in_box(round, self.alloc)
    }

    /// Goes on with a round between two turns. Where it has had none, all of them are taken in columns, if they can be.
    #[inline(always)]
    fn go_round<T: Tops<A>>(
        &mut self,
        tops: &T,
        round: Box<Round<'a, A>, A>,
        next: &'a Ops,
    ) -> Result<(), Stop>
        ensures { let t = T.table tops.now in let m = self.old in Fits t m
            → Steps t m result self.new (block_of self.new.code.now)
            (unwound t (frames_of m) (slots_of m) (stack_of m)
            (between t m.levels (block_of next.now) (env_of m) (local_of m) round.entry.value)) }
    {
        match place_alone(&*round) {
            Some(place) => self.begin_turn(round, place, next),
            None => self.go_round_apart(tops, round, next),
        }
    }

    // What is less frequent, where it is called.
    #[inline(never)]
    fn go_round_apart<T: Tops<A>>(
        &mut self,
        tops: &T,
        mut round: Box<Round<'a, A>, A>,
        next: &'a Ops,
    ) -> Result<(), Stop>
        ensures { let t = T.table tops.now in let m = self.old in Fits t m
            → Steps t m result self.new (block_of self.new.code.now)
            (unwound t (frames_of m) (slots_of m) (stack_of m)
            (between t m.levels (block_of next.now) (env_of m) (local_of m) round.entry.value)) }
    {
        self.meter.restart();
        self.take_new_rounds(tops, &mut round)?;
        self.go_on_with_round(round, next)
    }

    /// Begins the next turn of a round, or ends the round.
    #[inline(always)]
    pub fn go_on_with_round(
        &mut self,
        round: Box<Round<'a, A>, A>,
        next: &'a Ops,
    ) -> Result<(), Stop>
        ensures { (t : Table) → let m = self.old in Fits t m
            → Steps t m result self.new (block_of self.new.code.now)
            (unwound t (frames_of m) (slots_of m) (stack_of m)
            (between t m.levels (block_of next.now) (env_of m) (local_of m) round.entry.value)) }
    {
        match round.chosen.at(round.turns) {
            Some(place) => self.begin_turn(round, place, next),
            None => self.end_round(round, next),
        }
    }

    // Goes into the block of a round at a place.
    #[inline(always)]
    fn begin_turn(
        &mut self,
        mut round: Box<Round<'a, A>, A>,
        place: usize,
        next: &'a Ops,
    ) -> Result<(), Stop>
        ensures { (t : Table) → let m = self.old in Fits t m
            → slice_get (chosen_places round.entry.value.chosen) round.entry.value.turns ≡ Some place
            → Steps t m result self.new (block_of self.new.code.now)
            (unwound t (frames_of m) (slots_of m) (stack_of m)
            (between t m.levels (block_of next.now) (env_of m) (local_of m) round.entry.value)) }
    {
        self.meter.restart();
        let len = self.slots.len();
        put_at(&mut round, place);
        push_row(&mut self.slots, &round.sources, place)?;
        let code = round.block.ops();
        let frame = Frame {
            next,
            base: self.base,
            len,
            height: self.stack.len(),
            levels: self.levels,
            purpose: Purpose::Turn(round),
        };
        keep_frame(&mut self.frames, frame)?;
        self.code = code;
        Ok(())
    }

    // Puts the sequence of the values of a body on the stack.
    #[inline(always)]
    fn end_round(&mut self, round: Box<Round<'a, A>, A>, next: &'a Ops) -> Result<(), Stop>
        ensures { (t : Table) → let m = self.old in Fits t m
            → slice_get (chosen_places round.entry.value.chosen) round.entry.value.turns ≡ None
            → Steps t m result self.new (block_of self.new.code.now)
            (unwound t (frames_of m) (slots_of m) (stack_of m)
            (between t m.levels (block_of next.now) (env_of m) (local_of m) round.entry.value)) }
    {
        self.meter.restart();
        let Round {
            block: _,
            body,
            sources: _,
            chosen: _,
            turns: _,
            place: _,
            start,
            most,
            kept: _,
            values,
        } = Box::into_inner(round);
        if body.is_some() {
            return Err(Stop::Memory);
        }
        let depth = depth_after(start, most, self.meter.fuel())?;
        let value = finish(values)?;
        keep(&mut self.stack, value)?;
        self.meter.set_depth(depth);
        self.code = next;
        Ok(())
    }

    // Goes on with a round after a turn.
    #[inline(always)]
    fn go_on_after_turn<T: Tops<A>>(
        &mut self,
        tops: &T,
        round: Box<Round<'a, A>, A>,
        next: &'a Ops,
    ) -> Result<(), Stop>
        ensures { let t = T.table tops.now in let m = self.old in Fits t m
            → Steps t m result self.new (block_of self.new.code.now)
            (unwound t (frames_of m) (slots_of m) (stack_of m)
            (between t m.levels (block_of next.now) (env_of m) (local_of m) round.entry.value)) }
    {
        match round.chosen.at(round.turns) {
            Some(place) => self.begin_turn(round, place, next),
            None => self.end_turns(tops, round, next),
        }
    }

    // After a filter's last turn come those of its body, and after a body's last one the round ends.
    #[inline(never)]
    fn end_turns<T: Tops<A>>(
        &mut self,
        tops: &T,
        round: Box<Round<'a, A>, A>,
        next: &'a Ops,
    ) -> Result<(), Stop>
        ensures { let t = T.table tops.now in let m = self.old in Fits t m
            → slice_get (chosen_places round.entry.value.chosen) round.entry.value.turns ≡ None
            → Steps t m result self.new (block_of self.new.code.now)
            (unwound t (frames_of m) (slots_of m) (stack_of m)
            (between t m.levels (block_of next.now) (env_of m) (local_of m) round.entry.value)) }
    {
        match round.body {
            Some(_) => self.go_round_apart(tops, round, next),
            None => self.end_round(round, next),
        }
    }

    /// Ends a turn whose value is at hand, and goes on with its round.
    #[inline(always)]
    pub(crate) fn end_turn<T: Tops<A>>(
        &mut self,
        tops: &T,
        value: Value<A>,
        outer: Outer<'a>,
        round: Box<Round<'a, A>, A>,
    ) -> Result<(), Stop>
        ensures { let t = T.table tops.now in (before : Vec (Frame A.row.Denot) A.row.Denot) (height : ℕ)
            → let m = record self.old { frames = before } in let o = outer.entry in
            before.items ≡ self.old.frames.items ++ (record {
              next = o.next;
              base = o.base;
              len = o.len;
              height = height;
              levels = o.levels;
              purpose = Purpose.Turn round.entry;
            }) ∷ []
            → Fits t m → Steps t m result self.new (block_of self.new.code.now)
            (left_with t m (exec t m.levels (env_of m) finish (tree_of value ∷ local_of m))) }
    {
        self.end_any_turn(tops, value, outer, round)
    }

    // It is not inlined, so that its result takes no room in the loop's stack frame.
    #[inline(never)]
    fn end_any_turn<T: Tops<A>>(
        &mut self,
        tops: &T,
        value: Value<A>,
        outer: Outer<'a>,
        mut round: Box<Round<'a, A>, A>,
    ) -> Result<(), Stop>
        ensures { let t = T.table tops.now in (before : Vec (Frame A.row.Denot) A.row.Denot) (height : ℕ)
            → let m = record self.old { frames = before } in let o = outer.entry in
            before.items ≡ self.old.frames.items ++ (record {
              next = o.next;
              base = o.base;
              len = o.len;
              height = height;
              levels = o.levels;
              purpose = Purpose.Turn round.entry;
            }) ∷ []
            → Fits t m → Steps t m result self.new (block_of self.new.code.now)
            (left_with t m (exec t m.levels (env_of m) finish (tree_of value ∷ local_of m))) }
    {
        self.give_turn(value, outer.base, outer.len, outer.levels, &mut round)?;
        self.go_on_after_turn(tops, round, outer.next)
    }

    // Ends a turn whose value is at hand, and that a frame with these numbers waited for: its round is between two
    // turns then.
    #[inline(always)]
    fn give_turn(
        &mut self,
        value: Value<A>,
        base: usize,
        len: usize,
        levels: u32,
        round: &mut Box<Round<'a, A>, A>,
    ) -> Result<(), Stop>
        ensures { (t : Table) (before : Vec (Frame A.row.Denot) A.row.Denot) (f : Frame A.row.Denot)
            → let m = record self.old { frames = before } in
            before.items ≡ self.old.frames.items ++ f ∷ [] → f.base ≡ base → f.len ≡ len → f.levels ≡ levels
            → f.purpose ≡ Purpose.Turn round.old
            → Fits t m
            → Rests t m.meter.fuel result self.new (block_of f.next.now) round.new.value
            (left_with t m (exec t m.levels (env_of m) finish (tree_of value ∷ local_of m))) }
    {
        gather(round, value, &mut self.meter)?;
        cut(&mut self.slots, len);
        self.base = base;
        self.levels = levels;
        Ok(())
    }

    /// Ends a turn that a frame with these numbers waited for: its round is between two turns then.
    #[inline(always)]
    pub fn leave_turn(
        &mut self,
        base: usize,
        len: usize,
        levels: u32,
        round: &mut Box<Round<'a, A>, A>,
    ) -> Result<(), Stop>
        ensures { (t : Table) (before : Vec (Frame A.row.Denot) A.row.Denot) (f : Frame A.row.Denot)
            → let m = record self.old { frames = before } in
            before.items ≡ self.old.frames.items ++ f ∷ [] → f.base ≡ base → f.len ≡ len → f.levels ≡ levels
            → f.purpose ≡ Purpose.Turn round.old
            → Fits t m
            → Rests t m.meter.fuel result self.new (block_of f.next.now) round.new.value (left_at t m finish) }
    {
        match self.stack.pop() {
            Some(value) => self.give_turn(value, base, len, levels, round),
            None => Err(Stop::Stuck),
        }
    }
}
