//! A keeper that writes each line into the file of its user before the line is answered.
ghost use Rattle.std.specs.Prelude.{◌≡◌, ◌++◌, ◌∷◌, [], IfNone, IfOk, IfSome, None, OnOk, map, true};
ghost use Rattle.nesl_session_meaning.specs.State.{Log, empty_log};
ghost use Rattle.nesl_session_meaning.specs.Response.{Reply};
ghost use Rattle.nesl_house.specs.Renewal.{renewed};
ghost use Rattle.nesl_keep.specs.Device.{LeavesOnly, Only};
ghost use Rattle.nesl_keep.specs.Scroll.{device_of, kept, HasSameLines};
ghost use Rattle.nesl_keep.specs.Scroll.{IsBeforeOrAfter, IsBeforeOrAnew, IsLine, IsSettled};
ghost use Rattle.nesl_keeper.specs.Files.{head_text, rows_of, StandsForEither};
ghost use Rattle.nesl_keeper.specs.Steps.{IsFound, IsRestored, WasKept};

use crate::head::head_of;
use crate::replay::{compare, replay};
use memchr::memchr;
use nesl_house::lease::{Lease, Resumed};
use nesl_keep::blocks::read_lines;
use nesl_keep::device::{Device, DeviceError, Folder, Opened};
use nesl_keep::scroll::{Recovered, Scroll, Unrecovered, recover};
use nesl_line::keeper::{Archive, KeepFault, Keeper, Mark, Mismatch, NotTakenUp, TakenUp};
use nesl_session::laws::lines_are_stored;
use nesl_session::session::Session;
use std::alloc::Global;
use std::mem;

/// How far a keeper has come.
#[derive(Drop)]
pub enum Stage<D: Device> {
    /// No session was taken up.
    Away,
    /// The file has the lines of the session.
    Kept(Scroll<D>),
    /// A line could not be kept.
    Failed(Scroll<D>),
}

/// Keeps the session of one user in the file of that user.
#[derive(Drop)]
pub struct FileKeeper<'x, F: Folder> {
    folder: &'x F,
    stage: Stage<F::Device>,
}

/// Keeps sessions in the files of a folder.
#[derive_where(Clone, Copy)]
pub struct KeptFiles<'x, F> {
    folder: &'x F,
}

impl<'x, F> KeptFiles<'x, F> {
    pub fn new(folder: &'x F) -> KeptFiles<'x, F> {
        KeptFiles { folder }
    }
}

impl<'x, F: Folder + Sync> Archive for KeptFiles<'x, F>
where
    F::Device: Send,
{
    type Keeper = FileKeeper<'x, F>;

    fn keeper(&self) -> FileKeeper<'x, F> {
        FileKeeper {
            folder: self.folder,
            stage: Stage::Away,
        }
    }

    fn is_keeping(&self) -> bool {
        true
    }
}

/// What was found of a user: the file, and the session that it stands for if that isn't the one in memory.
#[derive(Drop)]
struct Found<D: Device> {
    scroll: Scroll<D>,
    restored: Option<Session>,
}

impl<F: Folder> Keeper for FileKeeper<'_, F> {
    ghost use Rattle.nesl_keeper.specs.Files.{HasFailed, Keeps, Leaves};

    ghost keeps = { λ k log. Keeps F.Device.seen F.Device.may_leave k.stage log };

    ghost leaves = { λ old new was is. Leaves F.Device.seen F.Device.may_leave F.Device.moment F.Device.left_since
        old.stage new.stage was is };

    ghost has_failed = { λ k. HasFailed k.stage };

    fn take_up(&mut self, alloc: Global, user: &[u8], lease: Lease) -> Result<TakenUp, NotTakenUp> {
        let Stage::Away = &self.stage else {
            return Err(NotTakenUp {
                lease,
                fault: KeepFault::Strange(Mismatch::Session(1)),
            });
        };
        let Found { scroll, restored } = match find(self.folder, alloc, user, lease.session()) {
            Ok(found) => found,
            Err(fault) => return Err(NotTakenUp { lease, fault }),
        };
        self.stage = Stage::Kept(scroll);
        match restored {
            Some(session) => {
                let Resumed { lease, restored } = lease.resume(session);
                Ok(TakenUp {
                    lease,
                    restored: Some(restored),
                })
            }
            None => {
                let _ = lease.session().lines();
                Ok(TakenUp {
                    lease,
                    restored: None,
                })
            }
        }
    }

    fn keep(
        &mut self,
        alloc: Global,
        line: &[u8],
        was: Mark,
        session: &Session,
    ) -> Result<(), KeepFault> {
        match mem::replace(&mut self.stage, Stage::Away) {
            Stage::Kept(scroll) => {
                let mut scroll = scroll;
                let kept = keep_line(&mut scroll, alloc, line, was, session);
                self.stage = match kept {
                    Ok(()) => Stage::Kept(scroll),
                    Err(_) => Stage::Failed(scroll),
                };
                kept
            }
            Stage::Away | Stage::Failed(_) => unreachable!(),
        }
    }

    fn renew(&mut self, alloc: Global, session: &Session) -> Result<(), KeepFault> {
        match mem::replace(&mut self.stage, Stage::Away) {
            Stage::Kept(scroll) => {
                let mut scroll = scroll;
                let kept = keep_renewed(&mut scroll, alloc, session);
                self.stage = match kept {
                    Ok(()) => Stage::Kept(scroll),
                    Err(_) => Stage::Failed(scroll),
                };
                kept
            }
            Stage::Away | Stage::Failed(_) => unreachable!(),
        }
    }
}

// Opens the file of a user, and finds the session that it stands for. A session in memory that isn't new must be that
// one.
fn find<F: Folder>(
    folder: &F,
    alloc: Global,
    user: &[u8],
    session: &Session,
) -> Result<Found<F::Device>, KeepFault>
    ensures there { IfOk result (λ f. IfNone f.restored (IsFound F.Device.seen F.Device.may_leave F.Device.moment
        F.Device.left_since f.scroll session.now)) }
    ensures restored { IfOk result (λ f. IfSome f.restored (λ s. IsFound F.Device.seen F.Device.may_leave
        F.Device.moment F.Device.left_since f.scroll s × IsRestored session.now s)) }
{
    let opened = match folder.open(alloc, user) {
        Ok(opened) => opened,
        Err(error) => return Err(fault_of(error)),
    };
    let rows = rows_in(alloc, opened.bytes.as_slice())?;
    if rows.is_empty() {
        let scroll = bring_to_rest(alloc, opened)?;
        return begin(scroll, alloc, session);
    }
    let restored = restore(alloc, session, rows.as_slice())?;
    drop(rows);
    let scroll = bring_to_rest(alloc, opened)?;
    Ok(Found { scroll, restored })
}

// Reads the lines of a file. One without a line has to be empty, or to have a closed gate alone, as a crash may leave
// it. Any other one isn't of a session.
fn rows_in(alloc: Global, bytes: &[u8]) -> Result<Vec<Vec<u8>>, KeepFault>
    ensures { IfOk result (λ rows. map (λ v. v.items) rows.items ≡ kept bytes.now) }
{
    let Ok(rows) = read_lines(alloc, bytes) else {
        return Err(KeepFault::Memory);
    };
    if rows.is_empty() && !is_blank(bytes) {
        return Err(KeepFault::Strange(Mismatch::Head));
    }
    Ok(rows)
}

// Whether a file is empty, or has a closed gate alone.
fn is_blank(bytes: &[u8]) -> bool {
    match bytes {
        [] | [b'.'] => true,
        _ => false,
    }
}

// Drops what is after the lines of a file. Nothing is written before it is known that the session fits.
fn bring_to_rest<D: Device + Drop>(alloc: Global, opened: Opened<D>) -> Result<Scroll<D>, KeepFault>
    requires read { opened.bytes.items ≡ D.seen opened.device }
    requires durable { Only (D.seen opened.device) (D.may_leave opened.device) }
    ensures settled { IfOk result (λ s. IsSettled D.seen D.may_leave s) }
    ensures same { IfOk result (λ s. kept (D.seen (device_of s)) ≡ kept opened.bytes.items) }
    ensures left { IfOk result (λ s. LeavesOnly D.moment D.left_since opened.device (device_of s)
        (HasSameLines (D.seen opened.device))) }
{
    match recover(alloc, opened) {
        Ok(Recovered { scroll, lines: _ }) => Ok(scroll),
        Err(Unrecovered { device: _, error }) => Err(fault_of(error)),
    }
}

// Writes the head of a new session into a file that has no line.
fn begin<D: Device + Drop>(
    scroll: Scroll<D>,
    alloc: Global,
    session: &Session,
) -> Result<Found<D>, KeepFault>
    requires settled { IsSettled D.seen D.may_leave scroll }
    requires none { kept (D.seen (device_of scroll)) ≡ [] }
    ensures new { IfOk result (λ f. (session.now ≡ empty_log session.now.limits) × (f.restored ≡ None)
        × IsSettled D.seen D.may_leave f.scroll × (kept (D.seen (device_of f.scroll)) ≡ rows_of session.now)) }
    ensures left { IfOk result (λ f. LeavesOnly D.moment D.left_since (device_of scroll) (device_of f.scroll)
        (StandsForEither session.now session.now)) }
{
    if !is_new(session) {
        return Err(KeepFault::Strange(Mismatch::Session(1)));
    }
    let mut scroll = scroll;
    restart(&mut scroll, alloc, session)?;
    Ok(Found {
        scroll,
        restored: None,
    })
}

// Restores the session of these rows, if the one in memory is new. Otherwise both must be the same.
fn restore(alloc: Global, session: &Session, rows: &[Vec<u8>]) -> Result<Option<Session>, KeepFault>
    ensures there { IfOk result (λ o. IfNone o (rows_of session.now ≡ map (λ v. v.items) rows.now)) }
    ensures restored { IfOk result (λ o. IfSome o (λ s. (rows_of s ≡ map (λ v. v.items) rows.now)
        × IsRestored session.now s)) }
{
    if is_new(session) {
        let restored = replay(alloc, session.limits(), rows)?;
        return Ok(Some(restored));
    }
    compare(alloc, session, rows)?;
    Ok(None)
}

// Whether a session has got no line yet.
fn is_new(session: &Session) -> bool
    ensures { result ≡ true → session.now ≡ empty_log session.now.limits }
{
    session.base() == session.limits().session_work
        && session.cleared() == 0
        && session.lines().is_empty()
}

// Has in the file what a line did to a session, which had this mark before the line.
fn keep_line<D: Device>(
    scroll: &mut Scroll<D>,
    alloc: Global,
    line: &[u8],
    was: Mark,
    session: &Session,
) -> Result<(), KeepFault>
    requires settled { IsSettled D.seen D.may_leave scroll.old }
    ensures settled { OnOk result (IsSettled D.seen D.may_leave scroll.new) }
    ensures kept { OnOk result ((old : Log) (reply : Reply)
        → WasKept old was line.now reply session.now (D.seen (device_of scroll.old))
        → kept (D.seen (device_of scroll.new)) ≡ rows_of session.now) }
    ensures left { (old : Log) (reply : Reply)
        → WasKept old was line.now reply session.now (D.seen (device_of scroll.old))
        → LeavesOnly D.moment D.left_since (device_of scroll.old) (device_of scroll.new)
        (StandsForEither old session.now) }
{
    lines_are_stored();
    let is = Mark::of(session);
    if is.cleared != was.cleared {
        restart(scroll, alloc, session)?;
        return Ok(());
    }
    if is.stored != was.stored {
        push(scroll, line)?;
        return Ok(());
    }
    Ok(())
}

// Adds a line to the file.
fn push<D: Device>(scroll: &mut Scroll<D>, line: &[u8]) -> Result<(), KeepFault>
    requires settled { IsSettled D.seen D.may_leave scroll.old }
    ensures settled { OnOk result (IsSettled D.seen D.may_leave scroll.new) }
    ensures added { OnOk result (kept (D.seen (device_of scroll.new))
        ≡ kept (D.seen (device_of scroll.old)) ++ line.now ∷ []) }
    ensures left { LeavesOnly D.moment D.left_since (device_of scroll.old) (device_of scroll.new)
        (IsBeforeOrAfter (kept (D.seen (device_of scroll.old))) line.now) }
{
    require_line(line)?;
    match scroll.push(line) {
        Ok(()) => Ok(()),
        Err(error) => Err(fault_of(error)),
    }
}

// Puts the head of a session that has no lines in the place of all lines of the file.
fn restart<D: Device>(
    scroll: &mut Scroll<D>,
    alloc: Global,
    session: &Session,
) -> Result<(), KeepFault>
    requires settled { IsSettled D.seen D.may_leave scroll.old }
    ensures settled { OnOk result (IsSettled D.seen D.may_leave scroll.new) }
    ensures anew { OnOk result (kept (D.seen (device_of scroll.new))
        ≡ head_text session.now.base session.now.cleared ∷ []) }
    ensures left { LeavesOnly D.moment D.left_since (device_of scroll.old) (device_of scroll.new)
        (IsBeforeOrAnew (kept (D.seen (device_of scroll.old))) (head_text session.now.base session.now.cleared)) }
{
    let Ok(head) = head_of(alloc, session) else {
        return Err(KeepFault::Memory);
    };
    require_line(head.as_slice())?;
    match scroll.restart(alloc, head.as_slice()) {
        Ok(()) => Ok(()),
        Err(error) => Err(fault_of(error)),
    }
}

// Has in the file a session that began in the place of the one that the file has.
fn keep_renewed<D: Device>(
    scroll: &mut Scroll<D>,
    alloc: Global,
    session: &Session,
) -> Result<(), KeepFault>
    requires settled { IsSettled D.seen D.may_leave scroll.old }
    ensures settled { OnOk result (IsSettled D.seen D.may_leave scroll.new) }
    ensures kept { OnOk result ((old : Log) → session.now ≡ renewed old
        → kept (D.seen (device_of scroll.new)) ≡ rows_of session.now) }
    ensures left { (old : Log) → kept (D.seen (device_of scroll.old)) ≡ rows_of old → session.now ≡ renewed old
        → LeavesOnly D.moment D.left_since (device_of scroll.old) (device_of scroll.new)
        (StandsForEither old session.now) }
{
    restart(scroll, alloc, session)
}

// Fails if there is a line feed in it. Lines that come from a stream, and heads, have none.
fn require_line(line: &[u8]) -> Result<(), KeepFault>
    ensures { OnOk result (IsLine line.now) }
{
    match memchr(b'\n', line) {
        None => Ok(()),
        Some(_) => Err(KeepFault::Strange(Mismatch::Head)),
    }
}

fn fault_of(error: DeviceError) -> KeepFault {
    match error {
        DeviceError::Memory => KeepFault::Memory,
        DeviceError::Failed(code) => KeepFault::Disk(code),
        DeviceError::Full => KeepFault::Full,
    }
}
