//! How a line is said to a session.
ghost use Rattle.std.specs.Prelude.{⊤};
ghost use Rattle.nesl_session_meaning.specs.Solo.{Responds};

use nesl_session::answer::Answer;
use nesl_session::session::Session;
use std::alloc::{Allocator, Global};

/// How a line is said to a session. In every manner, the answer is the step's, or `fault memory`, which changes
/// nothing.
pub trait Manner {
    /// Says a line to a session.
    fn say(&self, alloc: Global, session: &mut Session, text: &[u8]) -> Answer
        ensures { Responds session.old text.now result session.new };
}

/// Evaluates a line in the allocator of the session's own values.
#[derive(Clone, Copy)]
pub struct Plainly;

impl Manner for Plainly {
    fn say(&self, alloc: Global, session: &mut Session, text: &[u8]) -> Answer {
        session.line(alloc, text)
    }
}

/// Evaluates a line in a heap, which is as empty afterwards as it was before.
#[derive(Clone, Copy)]
pub struct InHeap<A: Allocator + Copy>(pub A);

impl<A: Allocator + Copy> Manner for InHeap<A> {
    fn say(&self, alloc: Global, session: &mut Session, text: &[u8]) -> Answer {
        session.line_in(alloc, text, self.0)
    }
}

/// How a line is said to a session in this crate: in a manner, or by a closure.
pub(crate) trait Saying {
    // It can be called, and answers as a session does.
    ghost sound: { Self → Type 0 };

    fn say(&self, alloc: Global, session: &mut Session, text: &[u8]) -> Answer
        requires { sound self.now }
        ensures { Responds session.old text.now result session.new };
}

/// Says a line in a manner.
#[derive(Clone, Copy)]
pub(crate) struct By<'a, M> {
    pub(crate) manner: &'a M,
}

impl<M: Manner> Saying for By<'_, M> {
    ghost sound = { λ _. ⊤ };

    fn say(&self, alloc: Global, session: &mut Session, text: &[u8]) -> Answer {
        self.manner.say(alloc, session, text)
    }
}

/// Says a line by a closure. An evaluation between threads needs a closure, which can use what the function around it
/// knows of these threads. A block of an `impl` only knows of its own thread.
#[derive(Drop)]
pub(crate) struct ByCall<F> {
    pub(crate) call: F,
}

impl<F: Fn(&mut Session, &[u8]) -> Answer + Drop> Saying for ByCall<F> {
    ghost sound = { λ by. ((args : _) → F.Fn.pre by.call args)
        × ((session : _) (text : _) (answer : _) (after : _)
        → F.Fn.post by.call (session, (text, tt)) (answer, (after, tt))
        → Responds session.now text.now answer after.now) };

    fn say(&self, _alloc: Global, session: &mut Session, text: &[u8]) -> Answer {
        (self.call)(session, text)
    }
}
