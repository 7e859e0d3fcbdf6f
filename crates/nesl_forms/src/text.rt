//! A text, cut into stretches.
ghost use Rattle.std.specs.Prelude.{◌≡◌, All, IfOk, length};
ghost use Rattle.std.specs.List.{flat_map};
ghost use Rattle.nesl_forms.specs.Cuts.{cut};
ghost use Rattle.nesl_forms.specs.Stretches.{bytes_of, Follow, IsRight};

use crate::cutter::Cutter;
use crate::scan::StretchKind;
use std::alloc::{AllocError, Global};

/// The bytes of a text from `start` on and before `end`: a form, or what is left out between two forms.
#[derive(Clone, Copy, PartialEq, Eq, Debug)]
pub struct Stretch {
    pub kind: StretchKind,
    pub start: usize,
    pub end: usize,
}

/// Cuts a text into stretches: its forms, and what is left out between them.
pub fn cut(alloc: Global, text: &[u8]) -> Result<Vec<Stretch>, AllocError>
    ensures cut { IfOk result (λ stretches. stretches.items ≡ cut text.now) }

    // The stretches follow one another from the first byte to the last, and none is empty. Together they are the text.
    ensures follow { IfOk result (λ stretches. Follow 0 stretches.items (length text.now)) }
    ensures joined { IfOk result (λ stretches. flat_map (bytes_of text.now) stretches.items ≡ text.now) }

    // Only blanks, comments and stray `;` are left out, and a whole form ends in `;`.
    ensures right { IfOk result (λ stretches. All (IsRight text.now) stretches.items) }
{
    let stretches = stretches_of(alloc, text)?;
    Ok(stretches)
}

fn stretches_of(alloc: Global, text: &[u8]) -> Result<Vec<Stretch>, AllocError>
    ensures { IfOk result (λ stretches. stretches.items ≡ cut text.now) }
{
    let mut cutter = Cutter::new(alloc);
    for (place, byte) in text.iter().enumerate() {
        cutter.read(place, *byte)?;
    }
    cutter.finish(text.len())
}
