//! The lines of a reader, heard and replied to one by one.
ghost use Rattle.std.specs.Prelude.{◌≡◌, []};
ghost use Rattle.nesl_line.specs.Exchange.{IsExchange, ReadsTallied, WritesTallied};
ghost use Rattle.nesl_line.specs.Steps.{IsFresh};

use crate::device::{Sink, Source};
use crate::hearer::Hearer;
use crate::talk::{Flow, Talk};
use std::alloc::Global;

/// How an exchange ended.
#[derive(Clone, Copy, PartialEq, Eq, Debug)]
pub enum End {
    /// The input ended, or nothing more is heard.
    Input,
    /// A read failed, or 2^32 reads were made.
    ReadFault,
    /// A write or a flush failed, or a write took no byte.
    WriteFault,
    /// Memory ran out before the first read.
    NoMemory,
}

/// The number of lines that got an answer, even if it could not be written; and how the exchange ended.
#[derive(Clone, Copy, PartialEq, Eq, Debug)]
pub struct Ran {
    pub lines: u64,
    pub end: End,
}

/// The most reads of one exchange.
pub const MOST_READS: u64 = 4294967296;

// The number of bytes that one read asks for.
const CHUNK: usize = 4096;

/// Passes the lines of a reader to a hearer, one by one. Each reply is written and flushed before the next line is
/// looked at.
pub fn exchange<S: Source, W: Sink, H: Hearer>(
    alloc: Global,
    reader: &mut S,
    writer: &mut W,
    hearer: &mut H,
    world: &mut H::World,
) -> Ran
    requires ready { H.ready hearer.old world.old }
    requires nothing_heard { H.heard hearer.old world.old hearer.old world.old [] [] }
    ensures exchange { IsExchange (H.heard hearer.old world.old hearer.new world.new)
        (H.over hearer.new) result.end result.lines (record {
          left = S.left reader.old;
          left_after = S.left reader.new;
          held = W.held writer.old;
          held_after = W.held writer.new;
        }) }
    ensures reads { ReadsTallied result.end (S.tally reader.old) (S.tally reader.new) }
    ensures writes { WritesTallied result.end result.lines (W.tally writer.old) (W.tally writer.new) }
{
    let Ok(mut talk) = Talk::new(alloc) else {
        return Ran {
            lines: 0,
            end: End::NoMemory,
        };
    };
    let end = converse(alloc, reader, writer, hearer, world, &mut talk);
    Ran {
        lines: talk.lines(),
        end,
    }
}

// Reads until the end of input, or until nothing more is heard, or something fails.
fn converse<S: Source, W: Sink, H: Hearer>(
    alloc: Global,
    reader: &mut S,
    writer: &mut W,
    hearer: &mut H,
    world: &mut H::World,
    talk: &mut Talk,
) -> End
    requires fresh { IsFresh talk.old }
    requires ready { H.ready hearer.old world.old }
    requires nothing_heard { H.heard hearer.old world.old hearer.old world.old [] [] }
    ensures exchange { IsExchange (H.heard hearer.old world.old hearer.new world.new)
        (H.over hearer.new) result talk.new.lines (record {
          left = S.left reader.old;
          left_after = S.left reader.new;
          held = W.held writer.old;
          held_after = W.held writer.new;
        }) }
    ensures reads { ReadsTallied result (S.tally reader.old) (S.tally reader.new) }
    ensures writes { WritesTallied result talk.new.lines (W.tally writer.old) (W.tally writer.new) }
{
    let mut chunk = [0u8; CHUNK];
    'reads: for read_count in 0..MOST_READS {
        match reader.read(&mut chunk) {
            Err(_) => return End::ReadFault,
            Ok(0) => {
                if !talk.end_input(alloc, writer, hearer, world) {
                    return End::WriteFault;
                }
                return End::Input;
            }
            Ok(n) => match talk.take_in(alloc, writer, hearer, world, &chunk[..n]) {
                Flow::On => {}
                Flow::Over => return End::Input,
                Flow::Broken => return End::WriteFault,
            },
        }
    }
    End::ReadFault
}
