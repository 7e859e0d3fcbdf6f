//! An exchange that is under way.
ghost use Rattle.std.specs.Prelude.{◌≡◌, ℕ, ◌+◌, ◌<◌, ◌≤◌, ◌^◌, [], ◌∷◌, ◌++◌, List, Option, IfOk, IfSome, IfNone};
ghost use Rattle.std.specs.Prelude.{length, take, slice_index, true, false, ⊤};
ghost use Rattle.std.specs.Bool.{MatchBool};
ghost use Rattle.nesl_line.specs.Lines.{HasNoFeed, AllLines, WholeLines};
ghost use Rattle.nesl_line.specs.Tally.{WriteTally, flushed_by};

use crate::device::Sink;
use crate::hearer::Hearer;
use crate::line::Line;
use crate::tell::answer;
use memchr::memchr;
use std::alloc::{AllocError, Global};

/// How an exchange goes on.
pub enum Flow {
    /// More may come.
    On,
    /// Nothing more is heard.
    Over,
    /// A reply could not be sent.
    Broken,
}

// What has come in of a line, and the number of lines that got an answer.
#[derive(Drop)]
pub struct Talk {
    line: Line,
    lines: u64,
}

impl Talk {
    ghost use Rattle.nesl_line.specs.Steps.{By, is_sent, Flushed, Goes, Halts, Stops, Done, IsFresh};

    // An exchange that begins.
    pub fn new(alloc: Global) -> Result<Talk, AllocError>
        ensures { IfOk result IsFresh }
    {
        let line = Line::new(alloc)?;
        Ok(Talk { line, lines: 0 })
    }

    // The number of lines that got an answer.
    pub fn lines(&self) -> u64
        ensures { result ≡ self.now.lines }
    {
        self.lines
    }

    // Takes in some bytes. Each line that ends in them is heard and replied to.
    pub fn take_in<H: Hearer, W: Sink>(
        &mut self,
        alloc: Global,
        writer: &mut W,
        hearer: &mut H,
        world: &mut H::World,
        bytes: &[u8],
    ) -> Flow
        requires ready { H.ready hearer.old world.old }
        requires few { self.old.lines + length bytes.now < 2 ^ 64 }
        ensures talk { (first : H) (start : H.World) (held : Option (List ℕ)) (read : List ℕ)
            → Goes (H.heard first start hearer.old world.old) self.old read held (W.held writer.old)
            → By result (Goes (H.heard first start hearer.new world.new) self.new (read ++ bytes.now) held
            (W.held writer.new))
            (Halts (H.heard first start hearer.new world.new) self.new (read ++ bytes.now) held (W.held writer.new))
            (Stops WholeLines (H.heard first start hearer.new world.new) self.new (read ++ bytes.now) held
            (W.held writer.new)) }
        ensures tally { (start : WriteTally) → W.tally writer.old ≡ flushed_by self.old.lines start
            → Flushed (is_sent result) self.new.lines start (W.tally writer.new) }
        ensures ready { By result (H.ready hearer.new world.new) (H.over hearer.new ≡ true) ⊤ }
        ensures few { self.new.lines ≤ self.old.lines + length bytes.now }
    {
        let mut rest = bytes;
        while let Some(place) = feed_in(rest) {
            self.line.add(&rest[..place]);
            rest = &rest[place + 1..];
            if !self.end_line(alloc, writer, hearer, world) {
                return Flow::Broken;
            }
            if hearer.is_over() {
                return Flow::Over;
            }
        }
        self.line.add(rest);
        Flow::On
    }

    // Ends a line at its LF, and replies to it.
    fn end_line<H: Hearer, W: Sink>(
        &mut self,
        alloc: Global,
        writer: &mut W,
        hearer: &mut H,
        world: &mut H::World,
    ) -> bool
        requires ready { H.ready hearer.old world.old }
        requires few { self.old.lines + 1 < 2 ^ 64 }
        ensures talk { (first : H) (start : H.World) (held : Option (List ℕ)) (read : List ℕ)
            → Goes (H.heard first start hearer.old world.old) self.old read held (W.held writer.old)
            → MatchBool result (Goes (H.heard first start hearer.new world.new) self.new (read ++ 10 ∷ []) held
            (W.held writer.new))
            ((tail : List ℕ) → Stops WholeLines (H.heard first start hearer.new world.new) self.new
            (read ++ 10 ∷ tail) held (W.held writer.new)) }
        ensures tally { Flushed result 1 (W.tally writer.old) (W.tally writer.new) }
        ensures ready { H.over hearer.new ≡ false → H.ready hearer.new world.new }
        ensures lines { self.new.lines ≡ self.old.lines + 1 }
    {
        self.lines += 1;
        self.line.end();
        let sent = answer(alloc, writer, hearer, world, self.line.bytes());
        self.line.clear();
        sent
    }

    // Ends the input. What is left of it is a line, unless it is empty.
    pub fn end_input<H: Hearer, W: Sink>(
        &mut self,
        alloc: Global,
        writer: &mut W,
        hearer: &mut H,
        world: &mut H::World,
    ) -> bool
        requires ready { H.ready hearer.old world.old }
        requires few { self.old.lines + 1 < 2 ^ 64 }
        ensures talk { (first : H) (start : H.World) (held : Option (List ℕ)) (read : List ℕ)
            → Goes (H.heard first start hearer.old world.old) self.old read held (W.held writer.old)
            → MatchBool result (Done (H.heard first start hearer.new world.new) self.new read held (W.held writer.new))
            (Stops AllLines (H.heard first start hearer.new world.new) self.new read held (W.held writer.new)) }
        ensures tally { (start : WriteTally) → W.tally writer.old ≡ flushed_by self.old.lines start
            → Flushed result self.new.lines start (W.tally writer.new) }
    {
        if self.line.bytes().is_empty() {
            return true;
        }
        self.lines += 1;
        answer(alloc, writer, hearer, world, self.line.bytes())
    }
}

// The place of the first LF.
fn feed_in(bytes: &[u8]) -> Option<usize>
    ensures some { IfSome result (λ place. (place < length bytes.now) × (slice_index bytes.now place ≡ 10)
        × HasNoFeed (take place bytes.now)) }
    ensures none { IfNone result (HasNoFeed bytes.now) }
{
    memchr(b'\n', bytes)
}
