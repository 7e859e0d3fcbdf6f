//! The places of top-level names.

ghost use Rattle.std.specs.Prelude.{◌≡◌, if◌then◌else◌};
ghost use Rattle.std.specs.Str.{bytes_eq};
ghost use Rattle.nesl_eval_code.specs.Means.{place_of};
ghost use Rattle.nesl_eval_code.specs.Resolving.{with_own, known};

use nesl_types::NameOrder;

/// The top-level names. A function whose body is prepared before it is there has its place already, the last.
#[derive(Clone, Copy)]
pub struct Places<'a> {
    /// The names in order.
    pub names: &'a NameOrder,
    pub own: Option<&'a [u8]>,
}

/// The name's place.
pub(crate) fn place_of(places: &Places<'_>, name: &[u8]) -> Option<usize>
    ensures { result ≡ place_of (known places.now) name.now }
{
    match places.names.place_of(name) {
        Some(place) => Some(place),
        None => match places.own {
            Some(own) => last_place(own, name, places.names.len()),
            None => None,
        },
    }
}

/// The place after `others` others, if it is the name's.
fn last_place(own: &[u8], name: &[u8], others: usize) -> Option<usize>
    ensures { result ≡ (if bytes_eq name.now own.now then Some others else None) }
{
    if name == own { Some(others) } else { None }
}
