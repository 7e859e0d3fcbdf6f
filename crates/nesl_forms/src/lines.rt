//! The forms of a text, as lines for a session.
ghost use Rattle.std.specs.Prelude.{◌≡◌, ◌++◌, ◌∷◌, [], All, IfOk, OnOk, length, map};
ghost use Rattle.nesl_forms.specs.Forms.{lines_among, lines_of};
ghost use Rattle.nesl_forms.specs.Stretches.{LiesIn};

use crate::line::line_of;
use crate::scan::StretchKind;
use crate::text::{Stretch, cut};
use std::alloc::{AllocError, Global};

/// Returns the lines of a text's forms, in order. A session takes each for a whole form.
pub fn lines_of(alloc: Global, text: &[u8]) -> Result<Vec<Vec<u8>>, AllocError>
    ensures { IfOk result (λ lines. map (λ line. line.items) lines.items ≡ lines_of text.now) }
{
    let stretches = cut(alloc, text)?;
    let lines = lines_among(alloc, text, stretches.as_slice())?;
    Ok(lines)
}

// Returns the lines of the forms among these stretches.
#[tactic(auto, using(crate::proofs::FormLemmas::lines_next))]
fn lines_among(
    alloc: Global,
    text: &[u8],
    stretches: &[Stretch],
) -> Result<Vec<Vec<u8>>, AllocError>
    requires { All (LiesIn (length text.now)) stretches.now }
    ensures { IfOk result (λ lines. map (λ line. line.items) lines.items ≡ lines_among text.now stretches.now) }
{
    let mut lines = Vec::new(alloc);
    for stretch in stretches {
        put_line(alloc, &mut lines, text, *stretch)?;
    }
    Ok(lines)
}

// Appends the line of a stretch, if it is a form.
fn put_line(
    alloc: Global,
    lines: &mut Vec<Vec<u8>>,
    text: &[u8],
    stretch: Stretch,
) -> Result<(), AllocError>
    requires { LiesIn (length text.now) stretch }
    ensures { OnOk result (map (λ line. line.items) lines.new.items
        ≡ map (λ line. line.items) lines.old.items ++ lines_among text.now (stretch ∷ [])) }
{
    let form = &text[stretch.start..stretch.end];
    match stretch.kind {
        StretchKind::LeftOut => Ok(()),
        StretchKind::Whole | StretchKind::Line | StretchKind::Unfinished => {
            let line = line_of(alloc, stretch.kind, form)?;
            lines.push(line)?;
            Ok(())
        }
    }
}
