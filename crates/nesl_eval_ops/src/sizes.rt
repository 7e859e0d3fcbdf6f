//! How many values the frames round a node hold.
ghost use Rattle.std.specs.Prelude.{◌≡◌, ◌+◌, ◌++◌, ℕ, IfOk, IfSome, IsTrue};
ghost use Rattle.nesl_eval_code.specs.Flat.{room, place_of};
ghost use Rattle.nesl_eval_ops.specs.View.{sizes_of};

use std::alloc::{AllocError, Global};

/// A body inside more frames than these keeps no code, so that what is kept is in proportion to the code.
const MOST_FRAMES: usize = 64;

/// Most bodies are inside no more frames than these.
const FEW_FRAMES: usize = 3;

/// The sizes of frames, the newest first.
#[derive(Clone, Copy)]
pub(crate) enum Sizes<'a> {
    /// No frame.
    Top,
    /// A frame with the number of its values, and the frames outside it.
    Frame(usize, &'a Sizes<'a>),
}

/// How many values the frames hold.
#[inline(always)]
pub(crate) fn room(sizes: &Sizes<'_>) -> Result<usize, AllocError>
    ensures { IfOk result (λ n. n ≡ room (sizes_of sizes.now)) }
{
    room_and(sizes, 0)
}

/// How many values the frames hold, and `more`. It recurs over the frames.
fn room_and(sizes: &Sizes<'_>, more: usize) -> Result<usize, AllocError>
    ensures { IfOk result (λ n. n ≡ room (sizes_of sizes.now) + more) }
{
    match sizes {
        Sizes::Top => Ok(more),
        Sizes::Frame(size, outer) => match size.checked_add(more) {
            Some(all) => room_and(*outer, all),
            None => Err(AllocError),
        },
    }
}

/// The frames from the one on that is `up` frames up. It recurs over the frames.
fn frames_up<'a>(sizes: &'a Sizes<'a>, up: usize) -> &'a Sizes<'a>
    ensures { (index : ℕ) → place_of (sizes_of result.now) 0 index ≡ place_of (sizes_of sizes.now) up index }
{
    match sizes {
        Sizes::Top => sizes,
        Sizes::Frame(_, outer) => {
            if up > 0 {
                frames_up(*outer, up - 1)
            } else {
                sizes
            }
        }
    }
}

/// The place of the value `up` frames up, at that index of the frame, if there is one.
#[inline(always)]
pub(crate) fn place_of<'a>(
    sizes: &'a Sizes<'a>,
    up: usize,
    index: usize,
) -> Result<Option<usize>, AllocError>
    ensures { IfOk result (λ p. p ≡ place_of (sizes_of sizes.now) up index) }
{
    match frames_up(sizes, up) {
        Sizes::Top => Ok(None),
        Sizes::Frame(size, outer) => {
            if index >= *size {
                return Ok(None);
            }
            let place = room_and(*outer, index)?;
            Ok(Some(place))
        }
    }
}

/// The sizes of the frames, the newest first, if they are few.
pub(crate) fn list_of(alloc: Global, sizes: &Sizes<'_>) -> Result<Option<Vec<usize>>, AllocError>
    ensures { IfOk result (λ o. IfSome o (λ ks. ks.items ≡ sizes_of sizes.now)) }
{
    let mut list = Vec::with_capacity(alloc, FEW_FRAMES)?;
    if add_to(&mut list, sizes)? {
        Ok(Some(list))
    } else {
        Ok(None)
    }
}

/// Adds the sizes of the frames to a list, the newest first, if it stays short. It recurs over the frames.
fn add_to(list: &mut Vec<usize>, sizes: &Sizes<'_>) -> Result<bool, AllocError>
    ensures { IfOk result (λ b. IsTrue b → list.new.items ≡ list.old.items ++ sizes_of sizes.now) }
{
    match sizes {
        Sizes::Top => Ok(true),
        Sizes::Frame(size, outer) => {
            if list.len() == MOST_FRAMES {
                return Ok(false);
            }
            list.push(*size)?;
            add_to(list, *outer)
        }
    }
}
