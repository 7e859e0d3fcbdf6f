//! Hearers, which get the lines that come in.
ghost use Rattle.std.specs.Prelude.{◌≡◌, [], ◌∷◌, ◌++◌, List, ℕ, Bool, false};
ghost use Rattle.nesl_line.specs.Exchange.{Hearing};
ghost use Rattle.nesl_line.specs.Told.{text_told};

use nesl_session::answer::Answer;
use std::alloc::Global;

/// What is replied to a line.
#[derive(Drop)]
pub enum Told {
    /// The line itself.
    Back,
    /// An answer.
    By(Answer),
    /// These bytes.
    Text(Vec<u8>),
    /// An answer, and these bytes after it.
    With(Answer, Vec<u8>),
}

/// Hears the lines that come in, one after another, and returns the reply to each.
///
/// What a hearer keeps lasts as long as the exchange. The world outlasts it, and is lent for each line.
pub trait Hearer {
    /// What the lines change besides the hearer.
    type World;

    /// The lines that were heard, and the texts replied to them, on the way from one hearer and world to another.
    ghost heard: { Self → Self.World → Self → Self.World → Hearing };

    /// Nothing more is heard.
    ghost over: { Self → Bool };

    /// A line may come.
    ghost ready: { Self → Self.World → Type 0 };

    /// Hears one line.
    fn hear(&mut self, alloc: Global, world: &mut Self::World, line: &[u8]) -> Told
        requires { ready self.old world.old }
        ensures heard { (first : Self) (start : Self.World) (lines texts : List (List ℕ))
            → heard first start self.old world.old lines texts
            → heard first start self.new world.new (lines ++ line.now ∷ []) (texts ++ text_told line.now result ∷ []) }
        ensures ready { over self.new ≡ false → ready self.new world.new };

    /// Whether nothing more is heard.
    fn is_over(&self) -> bool
        ensures { result ≡ over self.now };
}
