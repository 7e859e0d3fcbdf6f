// The places of a window that are marked.
ghost use Rattle.std.specs.Prelude.{◌≡◌, ◌<◌, ℕ, ◌||◌, false, nat_eq, List, [], ◌∷◌, ◌++◌};
ghost use Rattle.nesl_seqs_index.specs.Marks.{is_marked, is_new, MarksSeen};

/// How many places a window has.
pub const WINDOW: usize = 524_288;

/// Marks at the places of a window.
#[derive(Drop)]
pub struct Marks {
    words: [u64; 8192],
}

impl Marks {
    /// No place is marked.
    pub fn new() -> Marks
        ensures { (q : ℕ) → is_marked result.words q ≡ false }
    {
        Marks { words: [0; 8192] }
    }

    /// Whether a place is marked.
    pub fn has(&self, place: usize) -> bool
        requires { place < 524288 }
        ensures { result ≡ is_marked self.now.words place }
    {
        self.words[place / 64] >> (place % 64) & 1 == 1
    }

    /// Marks a place.
    pub fn mark(&mut self, place: usize)
        requires { place < 524288 }
        ensures { (q : ℕ) → is_marked self.new.words q ≡ (is_marked self.old.words q || nat_eq place q) }
    {
        self.words[place / 64] |= 1 << (place % 64);
    }

    /// Marks a place, where it is one of the window. Whether it was not marked before.
    pub fn note(&mut self, window: usize, place: usize) -> bool
        ensures new { (seen : List ℕ) → MarksSeen self.old.words window seen → result ≡ is_new window seen place }
        ensures holds { (seen : List ℕ) → MarksSeen self.old.words window seen
            → MarksSeen self.new.words window (seen ++ place ∷ []) }
    {
        if place / WINDOW != window {
            return true;
        }
        let new = !self.has(place % WINDOW);
        self.mark(place % WINDOW);
        new
    }
}
