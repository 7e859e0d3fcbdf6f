//! How far a text is cut.
ghost use Rattle.std.specs.Prelude.{◌≡◌, ◌+◌, ◌^◌, ◌<◌, IfOk, OnOk};
ghost use Rattle.nesl_forms.specs.Cuts.{after_byte, at_first, last_kind, reached, with_edge, with_stretch};

use crate::bytes::kind_of;
use crate::scan::{
    Edge, OpenMark, StretchKind, Within, ends_name, make_change, step_at, takes_semicolon,
};
use crate::text::Stretch;
use std::alloc::{AllocError, Global};

/// How far a text is cut.
#[derive(Drop)]
pub struct Cutter {
    /// What the next byte is within.
    within: Within,
    /// What is open there, the newest last.
    opened: Vec<OpenMark>,
    /// Where the stretch began.
    start: usize,
    /// The stretches before it.
    stretches: Vec<Stretch>,
}

impl Cutter {
    pub fn new(alloc: Global) -> Cutter
        ensures { reached result ≡ at_first }
    {
        Cutter {
            within: Within::Between,
            opened: Vec::new(alloc),
            start: 0,
            stretches: Vec::new(alloc),
        }
    }

    /// Reads the byte at this place.
    pub fn read(&mut self, place: usize, byte: u8) -> Result<(), AllocError>
        requires { place < 2 ^ 63 }
        ensures { OnOk result (reached self.new ≡ after_byte (reached self.old) place byte) }
    {
        let kind = kind_of(byte);
        make_change(&mut self.opened, ends_name(self.within, kind))?;
        let step = step_at(self.within, takes_semicolon(self.opened.as_slice()), kind);
        make_change(&mut self.opened, step.change)?;
        self.within = step.within;
        self.end_at(step.edge, place)
    }

    // Ends the stretch, if the byte at this place has an edge.
    fn end_at(&mut self, edge: Edge, place: usize) -> Result<(), AllocError>
        requires { place < 2 ^ 63 }
        ensures { OnOk result (reached self.new ≡ with_edge edge place (reached self.old)) }
    {
        match edge {
            Edge::Inside => Ok(()),
            Edge::Before(kind) => self.end_stretch(kind, place),
            Edge::After(kind) => self.end_stretch(kind, place + 1),
        }
    }

    // Ends the stretch before this place, if it has a byte.
    fn end_stretch(&mut self, kind: StretchKind, place: usize) -> Result<(), AllocError>
        ensures { OnOk result (reached self.new ≡ with_stretch kind place (reached self.old)) }
    {
        if self.start == place {
            return Ok(());
        }
        self.stretches.push(Stretch {
            kind,
            start: self.start,
            end: place,
        })?;
        self.start = place;
        Ok(())
    }

    /// Ends the last stretch at the end of the text, and returns all of them.
    pub fn finish(self, end: usize) -> Result<Vec<Stretch>, AllocError>
        ensures { IfOk result (λ stretches. stretches.items
            ≡ (with_stretch (last_kind self.within) end (reached self)).stretches) }
    {
        let mut cutter = self;
        let kind = last_kind(cutter.within);
        cutter.end_stretch(kind, end)?;
        let Cutter { stretches, .. } = cutter;
        Ok(stretches)
    }
}

// What the stretch is that the end of the text ends.
fn last_kind(within: Within) -> StretchKind
    ensures { result ≡ last_kind within }
{
    match within {
        Within::Between => StretchKind::LeftOut,
        Within::Text
        | Within::Character
        | Within::Comment(_)
        | Within::Command
        | Within::Continued => StretchKind::Line,
        Within::Form | Within::Name(_) | Within::Colon | Within::Members => StretchKind::Unfinished,
    }
}
