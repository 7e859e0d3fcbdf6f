//! The places of an apply-to-each.
ghost use Rattle.std.specs.Prelude.{◌≡◌, ◌<◌, Some, length, slice_get};
ghost use Rattle.nesl_eval_nodes.specs.Sides.{places_of};

/// The places of an apply-to-each: all up to a number, or those that a filter kept.
#[derive(Clone, Copy)]
pub enum Places<'a> {
    All(usize),
    These(&'a [usize]),
}

impl Places<'_> {
    pub fn len(self) -> usize
        ensures { result ≡ length (places_of self.entry) }
    {
        match self {
            Places::All(len) => len,
            Places::These(places) => places.len(),
        }
    }

    pub fn at(self, turn: usize) -> usize
        requires { turn < length (places_of self) }
        ensures { slice_get (places_of self.entry) turn ≡ Some result }
    {
        match self {
            Places::All(_) => turn,
            Places::These(places) => places[turn],
        }
    }
}
