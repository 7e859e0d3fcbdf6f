//! Turns of a round in columns: a part of the code at a block of places, and then the next part.
ghost use Rattle.std.specs.Prelude.{◌≡◌, ◌+◌, ◌≤◌, ◌∷◌, ◌++◌, List, length, max};
ghost use Rattle.std.specs.Prelude.{Ok, None, IfSome, IsTrue, MatchResult, is_some, true};
ghost use Rattle.nesl_values.specs.Tree.{ValueTree};
ghost use Rattle.nesl_values_builder.specs.Elements.{elements_of};
ghost use Rattle.nesl_eval_code.specs.Block as blocks;
ghost use Rattle.nesl_eval_code.specs.Exec.{laid, kept_of};
ghost use Rattle.nesl_eval_code.specs.Flat.{room, flat};
ghost use Rattle.nesl_eval_code.specs.BlockLaws.{sizes};
ghost use Rattle.nesl_eval_ops.specs.View.{body_block};
ghost use Rattle.nesl_eval_nodes.specs.Scopes.{frames_of};
ghost use Rattle.nesl_eval_nodes.specs.Sides.{Has};
ghost use Rattle.nesl_eval_nodes.specs.Meets.{Meets};
ghost use Rattle.nesl_eval_column_results.specs.Blocks.{block_places, IsWithin};
ghost use Rattle.nesl_eval_rounds.specs.Slots as slots;
ghost use Rattle.nesl_eval_rounds.specs.Rounds.{between, chosen_places, all_values, turn_of, places_left};
ghost use Rattle.nesl_eval_rounds.specs.Leads.{Took, ArePlaces};

use crate::state::Round;
use nesl_eval_nodes::held::Tops;
use nesl_eval_nodes::meter::{Meter, Stop};
use nesl_eval_nodes::scope::Scope;
use nesl_eval_ops::Laid;
use nesl_eval_plain::{Block, bodies_in_columns, filters_in_columns};
use nesl_values::Value;
use nesl_values_builder::SequenceBuilder;
use std::alloc::Allocator;

/// What all turns share: the top level, the values of local names, how many levels there are, and an allocator.
#[derive(Drop)]
pub struct Setting<'x, A: Allocator, T> {
    pub tops: &'x T,
    pub names: &'x [Value<A>],
    pub levels: u32,
    pub alloc: A,
}

// Whether frames of these sizes hold `count` values.
fn hold(sizes: &[usize], count: usize) -> bool
    ensures { IsTrue result → count ≡ room sizes.now }
{
    let mut left = count;
    for size in sizes {
        match left.checked_sub(*size) {
            Some(rest) => left = rest,
            None => return false,
        }
    }
    left == 0
}

/// The names round the row of these sequences, if there are as many as the sizes of the frames say.
pub fn scope_round<'x, A: Allocator>(
    names: &'x [Value<A>],
    sources: &[Value<A>],
    frame_sizes: &'x [usize],
) -> Option<Scope<'x, A>>
    ensures { IfSome result (λ s. (laid (frames_of s) ≡ slots.places_of names.now)
        × (frame_sizes.now ≡ length sources.now ∷ sizes (frames_of s))) }
{
    let (row, outer) = frame_sizes.split_first()?;
    if *row != sources.len() || !hold(outer, names.len()) {
        return None;
    }
    Some(Scope {
        values: names,
        sizes: outer,
    })
}

// The turns that a round has left, in this scope.
fn turns_left<'x, A: Allocator + Copy, T>(
    setting: &'x Setting<'x, A, T>,
    round: &'x Round<'_, A>,
    scope: &'x Scope<'x, A>,
) -> Block<'x, A, T>
    ensures same { (result.tops.now ≡ setting.now.tops.now) × (result.scope.now ≡ scope.now)
        × (result.values.now ≡ round.now.sources.items) }
    ensures places { block_places result ≡ places_left round.now round.now.turns }
    ensures within { IsWithin result }
{
    let places = round.chosen.places();
    let len = places.len();
    Block {
        tops: setting.tops,
        scope,
        values: &round.sources,
        places,
        from: round.turns.min(len),
        to: len,
        alloc: &setting.alloc,
    }
}

// The places at which a filter of this code holds in the turns that a round has left.
fn places_in_columns<'x, A: Allocator + Copy, T: Tops<A>>(
    setting: &'x Setting<'x, A, T>,
    round: &'x Round<'_, A>,
    filter: Laid<'x>,
    meter: &mut Meter,
) -> Option<Vec<usize, A>>
    ensures meets { let t = T.table setting.now.tops.now in let r = round.now in
        body_block r.block.now ≡ flat filter.entry.height filter.entry.sizes.now filter.entry.code.now None
        → IfSome result (λ ks. Meets ArePlaces meter.old (Ok ks) meter.new
        (kept_of (turn_of t setting.now.levels (slots.places_of setting.now.names.now) r) (places_left r r.turns))) }
    ensures spent { meter.new.fuel + meter.new.depth ≤ meter.old.fuel + meter.old.depth }
{
    let scope = scope_round(setting.names, &round.sources, filter.sizes)?;
    let turns = turns_left(setting, round, &scope);
    let levels = setting.levels.saturating_sub(filter.height);
    filters_in_columns(&turns, filter.code, levels, meter)
}

// The values of a body of this code in the turns that a round has left.
fn values_in_columns<'x, A: Allocator + Copy, T: Tops<A>>(
    setting: &'x Setting<'x, A, T>,
    round: &'x Round<'_, A>,
    body: Laid<'x>,
    meter: &mut Meter,
) -> Option<SequenceBuilder<A>>
    ensures meets { let t = T.table setting.now.tops.now in let r = round.now in
        body_block r.block.now ≡ flat body.entry.height body.entry.sizes.now body.entry.code.now None
        → IfSome result (λ b. Meets Has meter.old (Ok b) meter.new
        (all_values (turn_of t setting.now.levels (slots.places_of setting.now.names.now) r) (places_left r r.turns))) }
    ensures spent { meter.new.fuel + meter.new.depth ≤ meter.old.fuel + meter.old.depth }
{
    let scope = scope_round(setting.names, &round.sources, body.sizes)?;
    let turns = turns_left(setting, round, &scope);
    let levels = setting.levels.saturating_sub(body.height);
    bodies_in_columns(&turns, body.code, turns.to - turns.from, levels, meter)
}

impl<'a, A: Allocator + Copy> Round<'a, A> {
    // All turns are over, the deepest of which had this depth.
    fn end_turns(&mut self, depth: u64)
        ensures { self.new ≡ record self.old {
          turns = length (chosen_places self.old.chosen);
          most = max self.old.most depth;
        } }
    {
        self.turns = self.chosen.places().len();
        self.most = self.most.max(depth);
    }

    /// The places of all turns that a filter had left, the deepest of which had this depth.
    pub fn add_places(&mut self, places: &[usize], depth: u64) -> Result<(), Stop>
        ensures { MatchResult result (λ _. (self.new ≡ record self.old {
          kept = self.new.kept;
          turns = length (chosen_places self.old.chosen);
          most = max self.old.most depth;
        }) × (self.new.kept.items ≡ self.old.kept.items ++ places.now)) (λ e. e ≡ Stop.Memory) }
    {
        match self.kept.extend_from_slice(places) {
            Ok(()) => {
                self.end_turns(depth);
                Ok(())
            }
            Err(_) => Err(Stop::Memory),
        }
    }

    /// The values of all turns that a body had left, the deepest of which had this depth.
    pub fn add_values(&mut self, values: SequenceBuilder<A>, depth: u64) -> Result<(), Stop>
        ensures { MatchResult result (λ _. (self.new ≡ record self.old {
          values = self.new.values;
          turns = length (chosen_places self.old.chosen);
          most = max self.old.most depth;
        }) × (elements_of self.new.values ≡ elements_of self.old.values ++ elements_of values))
            (λ e. e ≡ Stop.Memory) }
    {
        match self.values.append(values) {
            Ok(()) => {
                self.end_turns(depth);
                Ok(())
            }
            Err(_) => Err(Stop::Memory),
        }
    }
}

// Takes all turns that a filter of this code has left, if its values are leaves and the fuel is enough.
fn take_filter_turns<'a, A: Allocator + Copy, T: Tops<A>>(
    setting: &Setting<'_, A, T>,
    round: &mut Round<'a, A>,
    filter: Laid<'_>,
    fuel: &mut u64,
) -> Result<(), Stop>
    ensures took { let t = T.table setting.now.tops.now in let s = setting.now in
        (b : blocks.Block) (st : List ValueTree) → is_some round.old.body ≡ true
        → body_block round.old.block.now ≡ flat filter.entry.height filter.entry.sizes.now filter.entry.code.now None
        → MatchResult result (λ _. Took fuel.old fuel.new
        (between t s.levels b (slots.places_of s.names.now) st round.old)
        (between t s.levels b (slots.places_of s.names.now) st round.new)) (λ e. e ≡ Stop.Memory) }
    ensures spent { fuel.new ≤ fuel.old }
{
    let mut meter = Meter::new(*fuel);
    match places_in_columns(setting, &*round, filter, &mut meter) {
        Some(places) => {
            *fuel = meter.fuel();
            round.add_places(&places, meter.depth())
        }
        None => Ok(()),
    }
}

// Takes all turns that a body of this code has left, if its values are leaves and the fuel is enough.
fn take_body_turns<'a, A: Allocator + Copy, T: Tops<A>>(
    setting: &Setting<'_, A, T>,
    round: &mut Round<'a, A>,
    body: Laid<'_>,
    fuel: &mut u64,
) -> Result<(), Stop>
    ensures took { let t = T.table setting.now.tops.now in let s = setting.now in
        (b : blocks.Block) (st : List ValueTree) → round.old.body ≡ None
        → body_block round.old.block.now ≡ flat body.entry.height body.entry.sizes.now body.entry.code.now None
        → MatchResult result (λ _. Took fuel.old fuel.new
        (between t s.levels b (slots.places_of s.names.now) st round.old)
        (between t s.levels b (slots.places_of s.names.now) st round.new)) (λ e. e ≡ Stop.Memory) }
    ensures spent { fuel.new ≤ fuel.old }
{
    let mut meter = Meter::new(*fuel);
    match values_in_columns(setting, &*round, body, &mut meter) {
        Some(values) => {
            *fuel = meter.fuel();
            round.add_values(values, meter.depth())
        }
        None => Ok(()),
    }
}

/// Takes all turns that a round has left in columns, if its block is plain, has a leaf at each place, and the fuel is
/// enough. Else everything stays as it was.
pub fn take_in_columns<'a, A: Allocator + Copy, T: Tops<A>>(
    setting: &Setting<'_, A, T>,
    round: &mut Round<'a, A>,
    fuel: &mut u64,
) -> Result<(), Stop>
    ensures took { let t = T.table setting.now.tops.now in let s = setting.now in
        (b : blocks.Block) (st : List ValueTree) → MatchResult result (λ _. Took fuel.old fuel.new
        (between t s.levels b (slots.places_of s.names.now) st round.old)
        (between t s.levels b (slots.places_of s.names.now) st round.new)) (λ e. e ≡ Stop.Memory) }
    ensures spent { fuel.new ≤ fuel.old }
{
    let block = round.block;
    match block.plain() {
        Some(laid) => match round.body {
            Some(_) => take_filter_turns(setting, round, laid, fuel),
            None => take_body_turns(setting, round, laid, fuel),
        },
        None => Ok(()),
    }
}
