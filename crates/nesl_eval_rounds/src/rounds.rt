//! How turns end, and what rounds gather.
ghost use Rattle.std.specs.Prelude.{◌≡◌, ℕ, ◌+◌, ◌<◌, ◌≤◌, ◌^◌, ◌++◌, Some, None, is_some, true};
ghost use Rattle.std.specs.Prelude.{MatchResult, suc, max, List, map, slice_get};
ghost use Rattle.nesl_values.specs.Tree.{ValueTree};
ghost use Rattle.nesl_values.specs.View.{tree_of, element_tree};
ghost use Rattle.nesl_eval_meaning.specs.Out.{value};
ghost use Rattle.nesl_eval_code.specs.Frames.{row};
ghost use Rattle.nesl_eval_code.specs.Run.{Table};
ghost use Rattle.nesl_eval_code.specs.Block.{Block};
ghost use Rattle.nesl_eval_code.specs.Exec.{Places};
ghost use Rattle.nesl_eval_rounds.specs.Slots.{places_of};
ghost use Rattle.nesl_eval_rounds.specs.Rounds.{chosen_places, between, in_turn};
ghost use Rattle.nesl_eval_rounds.specs.Leads.{Gave};

use crate::state::{Chosen, Round};
use nesl_eval_nodes::elements::element_at;
use nesl_eval_nodes::meter::{Meter, Stop};
use nesl_eval_nodes::nodes::{add, keep, keep_if, pay, read_truth, share};
use nesl_eval_ops::Body;
use nesl_values::{Element, Value};
use nesl_values_builder::SequenceBuilder;
use std::alloc::Allocator;
use std::mem;

impl<A: Allocator> Chosen<A> {
    /// The place of a turn, if there is one.
    #[inline(always)]
    pub fn at(&self, turn: usize) -> Option<usize>
        ensures { result ≡ slice_get (chosen_places self.now) turn }
    {
        match self {
            Chosen::All(count) => { if turn < *count { Some(turn) } else { None } }
            Chosen::These(places) => match places.get(turn) {
                Some(place) => Some(*place),
                None => None,
            },
        }
    }
}

// An element as a value.
#[inline(always)]
fn own<A: Allocator>(element: Element<'_, A>) -> Result<Value<A>, Stop>
    ensures { MatchResult result (λ v. tree_of v ≡ element_tree element.entry) (λ e. e ≡ Stop.Memory) }
{
    match element {
        Element::Int(number) => Ok(Value::Int(number)),
        Element::Bool(truth) => Ok(Value::Bool(truth)),
        Element::Char(character) => Ok(Value::Char(character)),
        Element::Node(value) => share(value),
    }
}

// The element of a sequence at a place, which is there.
fn own_element<A: Allocator>(
    sources: &[Value<A>],
    index: usize,
    place: usize,
) -> Result<Value<A>, Stop>
    ensures { MatchResult result
        (λ v. slice_get (row place (map tree_of sources.now)) index ≡ Some (Some (tree_of v))) (λ e. e ≡ Stop.Memory) }
{
    match element_at(sources, index, place) {
        Some(element) => own(element),
        None => Err(Stop::Memory),
    }
}

/// The elements of sequences at a place, as local names.
#[inline(always)]
pub fn push_row<A: Allocator>(
    slots: &mut Vec<Value<A>, A>,
    sources: &[Value<A>],
    place: usize,
) -> Result<(), Stop>
    ensures { MatchResult result (λ _. places_of slots.new.items
        ≡ places_of slots.old.items ++ row place (map tree_of sources.now)) (λ e. e ≡ Stop.Memory) }
{
    for index in 0..sources.len() {
        let value = own_element(sources, index, place)?;
        keep(slots, value)?;
    }
    Ok(())
}

/// The depth after a round.
#[inline(always)]
pub fn depth_after(start: u64, most: u64, fuel: u64) -> Result<u64, Stop>
    ensures { MatchResult result (λ d. (d ≡ start + most) × (fuel + d < 2 ^ 64)) (λ e. e ≡ Stop.Memory) }
{
    match start.checked_add(most) {
        Some(depth) if depth <= u64::MAX - fuel => Ok(depth),
        _ => Err(Stop::Memory),
    }
}

impl<'a, A: Allocator + Copy> Round<'a, A> {
    // One more turn is over, which had this depth.
    #[inline(always)]
    fn end_turn(&mut self, depth: u64) -> Result<(), Stop>
        ensures { MatchResult result
            (λ _. self.new ≡ record self.old { turns = suc self.old.turns; most = max self.old.most depth })
            (λ e. e ≡ Stop.Memory) }
    {
        match self.turns.checked_add(1) {
            Some(turns) => {
                self.turns = turns;
                self.most = self.most.max(depth);
                Ok(())
            }
            None => Err(Stop::Memory),
        }
    }

    // Ends a turn of a filter, which evaluated to this value.
    #[inline(always)]
    fn gather_place(&mut self, made: Value<A>, meter: &Meter) -> Result<(), Stop>
        ensures { (t : Table) (n : ℕ) (b : Block) (env : Places) (st : List ValueTree)
            → is_some self.old.body ≡ true → Gave meter.now.fuel result meter.now.fuel
            (in_turn t n b env st self.old (value (tree_of made) 0 meter.now.depth)) (between t n b env st self.new) }
    {
        let holds = read_truth(made)?;
        keep_if(&mut self.kept, self.place, holds)?;
        self.end_turn(meter.depth())
    }

    // Ends a turn of a body, which evaluated to this value.
    #[inline(always)]
    fn gather_value(&mut self, made: Value<A>, meter: &mut Meter) -> Result<(), Stop>
        ensures gave { (t : Table) (n : ℕ) (b : Block) (env : Places) (st : List ValueTree)
            → self.old.body ≡ None → Gave meter.old.fuel result meter.new.fuel
            (in_turn t n b env st self.old (value (tree_of made) 0 meter.old.depth)) (between t n b env st self.new) }
        ensures spent { meter.new.fuel ≤ meter.old.fuel }
        ensures depth { meter.new.depth ≡ meter.old.depth }
    {
        let value = pay(made, meter)?;
        add(&mut self.values, value)?;
        self.end_turn(meter.depth())
    }

    // Ends a turn, which evaluated to this value.
    #[inline(always)]
    fn gather(&mut self, made: Value<A>, meter: &mut Meter) -> Result<(), Stop>
        ensures gave { (t : Table) (n : ℕ) (b : Block) (env : Places) (st : List ValueTree)
            → Gave meter.old.fuel result meter.new.fuel
            (in_turn t n b env st self.old (value (tree_of made) 0 meter.old.depth)) (between t n b env st self.new) }
        ensures spent { meter.new.fuel ≤ meter.old.fuel }
        ensures depth { meter.new.depth ≡ meter.old.depth }
    {
        match self.body {
            Some(_) => self.gather_place(made, &*meter),
            None => self.gather_value(made, meter),
        }
    }

    // After a filter, the round of its body at the places that are kept.
    fn become_body(&mut self, body: &'a Body, fuel: u64, alloc: A) -> Result<(), Stop>
        ensures { MatchResult result (λ _. (t : Table) (n : ℕ) (b : Block) (env : Places) (st : List ValueTree)
            → self.old.body ≡ Some body.entry → slice_get (chosen_places self.old.chosen) self.old.turns ≡ None
            → between t n b env st self.old ≡ between t n b env st self.new) (λ e. e ≡ Stop.Memory) }
    {
        let start = depth_after(self.start, self.most, fuel)?;
        let kept = mem::replace(&mut self.kept, Vec::new(alloc));
        self.values = SequenceBuilder::with_room(alloc, kept.len());
        self.chosen = Chosen::These(kept);
        self.block = body;
        self.body = None;
        self.turns = 0;
        self.start = start;
        self.most = 0;
        Ok(())
    }

    // Goes on to the body once the filter had its last turn. Before that nothing changes.
    #[inline(always)]
    fn go_to_body(&mut self, fuel: u64, alloc: A) -> Result<(), Stop>
        ensures { MatchResult result (λ _. (t : Table) (n : ℕ) (b : Block) (env : Places) (st : List ValueTree)
            → between t n b env st self.old ≡ between t n b env st self.new) (λ e. e ≡ Stop.Memory) }
    {
        match self.body {
            Some(body) => match self.chosen.at(self.turns) {
                Some(_) => Ok(()),
                None => self.become_body(body, fuel, alloc),
            },
            None => Ok(()),
        }
    }
}

/// Ends a turn, which evaluated to this value.
#[inline(always)]
pub fn gather<'a, A: Allocator + Copy>(
    round: &mut Box<Round<'a, A>, A>,
    made: Value<A>,
    meter: &mut Meter,
) -> Result<(), Stop>
    ensures gave { (t : Table) (n : ℕ) (b : Block) (env : Places) (st : List ValueTree)
        → Gave meter.old.fuel result meter.new.fuel
        (in_turn t n b env st round.old.value (value (tree_of made) 0 meter.old.depth))
        (between t n b env st round.new.value) }
    ensures spent { meter.new.fuel ≤ meter.old.fuel }
    ensures depth { meter.new.depth ≡ meter.old.depth }
{
    (**round).gather(made, meter)
}

/// After a filter's last turn, the round of its body; else nothing.
#[inline(always)]
pub fn go_to_body<'a, A: Allocator + Copy>(
    round: &mut Box<Round<'a, A>, A>,
    fuel: u64,
    alloc: A,
) -> Result<(), Stop>
    ensures { MatchResult result (λ _. (t : Table) (n : ℕ) (b : Block) (env : Places) (st : List ValueTree)
        → between t n b env st round.old.value ≡ between t n b env st round.new.value) (λ e. e ≡ Stop.Memory) }
{
    (**round).go_to_body(fuel, alloc)
}
