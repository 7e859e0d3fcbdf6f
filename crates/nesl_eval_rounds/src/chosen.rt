//! The places of a round.
ghost use Rattle.std.specs.Prelude.{◌≡◌};
ghost use Rattle.nesl_eval_nodes.specs.Sides.{places_of};
ghost use Rattle.nesl_eval_rounds.specs.Rounds.{chosen_places};

use crate::state::Chosen;
use nesl_eval_nodes::places::Places;
use std::alloc::Allocator;

impl<A: Allocator> Chosen<A> {
    /// All of them.
    pub fn places(&self) -> Places<'_>
        ensures { places_of result ≡ chosen_places self.now }
    {
        match self {
            Chosen::All(count) => Places::All(*count),
            Chosen::These(places) => Places::These(places),
        }
    }
}
