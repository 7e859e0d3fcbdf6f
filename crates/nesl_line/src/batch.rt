//! The lines of a reader, answered by a house.
ghost use Rattle.std.specs.Prelude.{IfOk, OnErr};
ghost use Rattle.nesl_line.specs.Steps.{NamesFit};
ghost use Rattle.nesl_line.specs.Batch.{AnswersAll, AnswersFirst, IsBatch};
ghost use Rattle.nesl_line.specs.Exchange.{ReadsTallied, WritesTallied};

use crate::device::{Device, Sink, Source};
use crate::exchange::{End, Ran, exchange};
use crate::turn::Chooser;
use nesl_house::house::House;
use nesl_house::manner::{InHeap, Manner, Plainly};
use nesl_house::user::User;
use std::alloc::{AllocError, Allocator, Global};

/// Answers the lines of a text, each said in this manner, and returns the replies one after another. If memory runs
/// out, the replies are lost, and the house has answered the first lines of the text.
pub fn answer_text<M: Manner>(
    alloc: Global,
    text: &[u8],
    house: &mut House,
    manner: &M,
) -> Result<Vec<u8>, AllocError>
    ensures answered { IfOk result (λ replies. AnswersAll house.old text.now replies.items house.new) }
    ensures refused { OnErr result (AnswersFirst house.old text.now house.new) }
{
    let mut reader = Device::new(text);
    let mut writer = Device::new(Vec::new(alloc));
    match batch_by(alloc, &mut reader, &mut writer, house, manner).end {
        End::Input => Ok(writer.into_inner()),
        // No read of a text fails, and no text that fits in memory takes 2^32 reads.
        End::ReadFault | End::WriteFault | End::NoMemory => Err(AllocError),
    }
}

/// Answers the lines of a reader, one by one. Each answer is written and flushed before the next line is looked at.
pub fn batch<S: Source, W: Sink>(
    alloc: Global,
    reader: &mut S,
    writer: &mut W,
    house: &mut House,
) -> Ran
    ensures batch { IsBatch house.old house.new result.end result.lines (record {
      left = S.left reader.old;
      left_after = S.left reader.new;
      held = W.held writer.old;
      held_after = W.held writer.new;
    }) }
    ensures reads { ReadsTallied result.end (S.tally reader.old) (S.tally reader.new) }
    ensures writes { WritesTallied result.end result.lines (W.tally writer.old) (W.tally writer.new) }
{
    batch_by(alloc, reader, writer, house, &Plainly)
}

/// Answers the lines of a reader as `batch` does, each evaluated in a heap.
pub fn batch_in<S: Source, W: Sink, A: Allocator + Copy>(
    alloc: Global,
    reader: &mut S,
    writer: &mut W,
    house: &mut House,
    heap: A,
) -> Ran
    ensures batch { IsBatch house.old house.new result.end result.lines (record {
      left = S.left reader.old;
      left_after = S.left reader.new;
      held = W.held writer.old;
      held_after = W.held writer.new;
    }) }
    ensures reads { ReadsTallied result.end (S.tally reader.old) (S.tally reader.new) }
    ensures writes { WritesTallied result.end result.lines (W.tally writer.old) (W.tally writer.new) }
{
    batch_by(alloc, reader, writer, house, &InHeap(heap))
}

/// Answers the lines of a reader as `batch` does, each said in this manner.
pub fn batch_by<S: Source, W: Sink, M: Manner>(
    alloc: Global,
    reader: &mut S,
    writer: &mut W,
    house: &mut House,
    manner: &M,
) -> Ran
    ensures batch { IsBatch house.old house.new result.end result.lines (record {
      left = S.left reader.old;
      left_after = S.left reader.new;
      held = W.held writer.old;
      held_after = W.held writer.new;
    }) }
    ensures reads { ReadsTallied result.end (S.tally reader.old) (S.tally reader.new) }
    ensures writes { WritesTallied result.end result.lines (W.tally writer.old) (W.tally writer.new) }
{
    let room = longest_name(house.users());
    let Ok(mut chooser) = Chooser::new(alloc, manner, room) else {
        return Ran {
            lines: 0,
            end: End::NoMemory,
        };
    };
    exchange(alloc, reader, writer, &mut chooser, house)
}

// The length of the longest name.
pub(crate) fn longest_name(users: &[User]) -> usize
    ensures { NamesFit result users.now }
{
    let mut longest = 0;
    for user in users {
        longest = longest.max(user.name().len());
    }
    longest
}
