//! Names that are near to one another.

/// The most bytes of a name that is compared with others, of which a session may have many.
const MOST_BYTES: usize = 256;

/// Whether two names differ by one byte more, one less, another one, or two neighbours that changed places. Long names
/// are near to none.
pub fn near(first: &[u8], second: &[u8]) -> bool {
    if first.len().max(second.len()) > MOST_BYTES {
        return false;
    }
    let same = first
        .iter()
        .zip(second.iter())
        .take_while(|(one, other)| one == other)
        .count();
    match (first.get(same..), second.get(same..)) {
        (Some(one), Some(other)) => differ_at_front(one, other),
        _ => false,
    }
}

// Whether two texts differ so in their first bytes alone.
fn differ_at_front(first: &[u8], second: &[u8]) -> bool {
    match (first, second) {
        ([], []) | ([_], []) | ([], [_]) => true,
        ([a, one @ ..], [b, other @ ..]) => {
            one == other || one == second || first == other || is_swapped(*a, *b, one, other)
        }
        _ => false,
    }
}

// Whether two bytes, and those after them, are two neighbours that changed places.
fn is_swapped(a: u8, b: u8, one: &[u8], other: &[u8]) -> bool {
    match (one, other) {
        ([c, one @ ..], [d, other @ ..]) => a == *d && b == *c && one == other,
        _ => false,
    }
}
