// Places that are named by numbers.
ghost use Rattle.std.specs.Prelude.{◌≡◌, ◌<◌, IfSome};
ghost use Rattle.nesl_seqs_base.specs.Places.{place_of};

use crate::item::Item;

/// No signed number of 64 bits is this or more.
const SIGNLESS: usize = 1 << 63;

/// The place that an index names in a sequence of that length.
pub fn place_of<I: Item>(index: &I, len: usize) -> Option<usize>
    ensures place { result ≡ place_of len (I.tree index.now) }
    ensures within { IfSome result (λ k. k < len) }
{
    // A number below 0 is no less than 2^63 without its sign, so one comparison will do.
    let place = index.as_int()?.cast_unsigned() as usize;
    if place < len.min(SIGNLESS) {
        Some(place)
    } else {
        None
    }
}
