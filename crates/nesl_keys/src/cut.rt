//! Takes the last word off a line.
ghost use Rattle.std.specs.Prelude.{◌≡◌, ◌≢◌, ℕ, List, ◌++◌, ◌∷◌, IfSome, IfNone, length};

/// A line that ends in a space and a word.
#[derive(Clone, Copy)]
pub(crate) struct Cut<'a> {
    /// What comes before the space.
    pub(crate) front: &'a [u8],
    pub(crate) word: &'a [u8],
}

/// Takes a space and the `width` bytes after it off the end of a line.
pub(crate) fn cut_word(line: &[u8], width: usize) -> Option<Cut<'_>>
    ensures some { IfSome result (λ parts. (line.now ≡ parts.front.now ++ 32 ∷ parts.word.now)
        × (length parts.word.now ≡ width)) }
    ensures none { IfNone result ((front word : List ℕ) → length word ≡ width → line.now ≢ front ++ 32 ∷ word) }
{
    if line.len() <= width {
        return None;
    }
    let (front, rest) = line.split_at(line.len() - width - 1);
    match rest.split_first() {
        Some((b' ', word)) => Some(Cut { front, word }),
        _ => None,
    }
}
