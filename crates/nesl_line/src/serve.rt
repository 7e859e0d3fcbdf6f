//! The lines of one connection, answered by the session of one user.
ghost use Rattle.nesl_line.specs.Guest.{IsHeard};
ghost use Rattle.nesl_line.specs.Keeping.{IsHeardAndKept};
ghost use Rattle.nesl_line.specs.Serve.{IsHeardWithHints, IsServed};
ghost use Rattle.nesl_line.specs.Exchange.{ReadsTallied, WritesTallied};
ghost use Rattle.nesl_line.specs.Visiting.{Attends, SessionAnswersLine};

use crate::device::{Sink, Source};
use crate::exchange::{End, exchange};
use crate::guest::{Guest, Left};
use crate::hinted::Hinter;
use crate::hinting_guest::HintingGuest;
use crate::keeper::{Keeper, Unkept};
use nesl_eval_helpers::{Gate, Helpers, Place};
use nesl_house::lease::{Lease, Receipt};
use nesl_house::table::Table;
use nesl_session::answer::Answer;
use std::alloc::Global;
use std::sync::Wait;
use std::thread::Threads;

/// What a connection did: the number of lines that got an answer, and how it ended. The last answer counts even if it
/// could not be written. If a user was seated, there is a receipt for the session.
#[derive(Clone, Copy, PartialEq, Eq, Debug)]
pub struct Served {
    pub lines: u64,
    pub receipt: Option<Receipt>,
    pub end: End,
}

/// What a connection did whose user's session is kept. If lines were restored, there is a receipt for them. A fault
/// says why the session could not be taken up, or why the last line was not kept. In that case the line got no answer,
/// and the session in memory may have it.
#[derive(Clone, Copy, PartialEq, Eq, Debug)]
pub struct ServedAndKept {
    pub served: Served,
    pub restored: Option<Receipt>,
    pub fault: Option<Unkept>,
}

/// What connections share: the allocator, the table, the helpers for halves, and the gate.
#[derive_where(Clone, Copy)]
pub struct Room<'t, H, G> {
    pub alloc: Global,
    pub table: &'t Table,
    pub helpers: &'t H,
    pub gate: &'t G,
}

/// Answers the lines of a reader by the session of the user whom the first line names. Each answer is written and
/// flushed before the next line is looked at. Meanwhile the session is out of the table, and it goes back at every end.
/// The gate gets the user's place before each line is evaluated.
pub fn serve<'t, S: Source, W: Sink, R: Threads + Wait + Sync, H: Helpers + Sync, G: Gate + Sync>(
    rt: &'t R,
    alloc: Global,
    reader: &mut S,
    writer: &mut W,
    table: &'t Table,
    helpers: &'t H,
    gate: &'t G,
) -> Served
    ensures served { IsServed (IsHeard table.now.roster table.now.limits) result (record {
      left = S.left reader.old;
      left_after = S.left reader.new;
      held = W.held writer.old;
      held_after = W.held writer.new;
    }) }
    ensures reads { ReadsTallied result.end (S.tally reader.old) (S.tally reader.new) }
    ensures writes { WritesTallied result.end result.lines (W.tally writer.old) (W.tally writer.new) }
{
    let room = Room {
        alloc,
        table,
        helpers,
        gate,
    };
    attend(rt, reader, writer, &mut (), &room).served
}

/// Answers the lines of a reader as `serve` does, and keeps the user's session. Each line is kept before its answer is
/// written. If it can't be kept, it gets no answer, and nothing more is heard.
pub fn serve_and_keep<
    't,
    S: Source,
    W: Sink,
    K: Keeper,
    R: Threads + Wait + Sync,
    H: Helpers + Sync,
    G: Gate + Sync,
>(rt: &'t R, reader: &mut S, writer: &mut W, keeper: &mut K, room: &Room<'t, H, G>) -> ServedAndKept
    ensures served { IsServed (IsHeardAndKept K.keeps K.leaves room.now.table.now.roster
        room.now.table.now.limits keeper.old keeper.new) result.served (record {
          left = S.left reader.old;
          left_after = S.left reader.new;
          held = W.held writer.old;
          held_after = W.held writer.new;
        }) }
    ensures reads { ReadsTallied result.served.end (S.tally reader.old) (S.tally reader.new) }
    ensures writes { WritesTallied result.served.end result.served.lines (W.tally writer.old) (W.tally writer.new) }
{
    attend(rt, reader, writer, keeper, room)
}

fn attend<
    't,
    S: Source,
    W: Sink,
    K: Keeper,
    R: Threads + Wait + Sync,
    H: Helpers + Sync,
    G: Gate + Sync,
>(rt: &'t R, reader: &mut S, writer: &mut W, keeper: &mut K, room: &Room<'t, H, G>) -> ServedAndKept
    ensures attends { Attends K.keeps K.leaves K.has_failed keeper.old keeper.new room.now.table.now.roster
        room.now.table.now.limits result.served (record {
          left = S.left reader.old;
          left_after = S.left reader.new;
          held = W.held writer.old;
          held_after = W.held writer.new;
        }) }
    ensures reads { ReadsTallied result.served.end (S.tally reader.old) (S.tally reader.new) }
    ensures writes { WritesTallied result.served.end result.served.lines (W.tally writer.old) (W.tally writer.new) }
{
    let Room {
        alloc,
        table,
        helpers,
        gate,
    } = *room;
    let speak = |lease: Lease, line: &[u8]| -> (Lease, Answer)
        ensures { SessionAnswersLine lease line.now result }
    { answer_line(rt, alloc, lease, line, helpers, gate) };
    let mut guest = Guest::new(rt, table, speak);
    let ran = exchange(alloc, reader, writer, &mut guest, keeper);
    let Left {
        receipt,
        restored,
        fault,
    } = guest.leave();
    ServedAndKept {
        served: Served {
            lines: ran.lines,
            receipt,
            end: ran.end,
        },
        restored,
        fault,
    }
}

/// Answers the lines of a reader as `serve_and_keep` does, with a hint below each fault that has one. A hint is one
/// line.
pub fn serve_with_hints<
    't,
    S: Source,
    W: Sink,
    K: Keeper,
    R: Threads + Wait + Sync,
    H: Helpers + Sync,
    G: Gate + Sync,
    N: Hinter,
>(
    rt: &'t R,
    reader: &mut S,
    writer: &mut W,
    keeper: &mut K,
    room: &Room<'t, H, G>,
    hinter: &'t N,
) -> ServedAndKept
    ensures served { IsServed (IsHeardWithHints K.keeps K.leaves room.now.table.now.roster
        room.now.table.now.limits keeper.old keeper.new) result.served (record {
          left = S.left reader.old;
          left_after = S.left reader.new;
          held = W.held writer.old;
          held_after = W.held writer.new;
        }) }
    ensures reads { ReadsTallied result.served.end (S.tally reader.old) (S.tally reader.new) }
    ensures writes { WritesTallied result.served.end result.served.lines (W.tally writer.old) (W.tally writer.new) }
{
    let Room {
        alloc,
        table,
        helpers,
        gate,
    } = *room;
    let speak = |lease: Lease, line: &[u8]| -> (Lease, Answer)
        ensures { SessionAnswersLine lease line.now result }
    { answer_line(rt, alloc, lease, line, helpers, gate) };
    let guest = Guest::new(rt, table, speak);
    let mut hinting = HintingGuest { guest, hinter };
    let ran = exchange(alloc, reader, writer, &mut hinting, keeper);
    let HintingGuest { guest, hinter: _ } = hinting;
    let Left {
        receipt,
        restored,
        fault,
    } = guest.leave();
    ServedAndKept {
        served: Served {
            lines: ran.lines,
            receipt,
            end: ran.end,
        },
        restored,
        fault,
    }
}

// What the session of a lease answers to a line, and the lease after it.
fn answer_line<R: Threads + Wait + Sync, H: Helpers + Sync, G: Gate + Sync>(
    rt: &R,
    alloc: Global,
    lease: Lease,
    line: &[u8],
    helpers: &H,
    gate: &G,
) -> (Lease, Answer)
    ensures { SessionAnswersLine lease line.now result }
{
    let mut lease = lease;
    gate.enter(Place::Line(lease.place()));
    let answer = lease.line_split(rt, alloc, line, helpers, gate);
    (lease, answer)
}
