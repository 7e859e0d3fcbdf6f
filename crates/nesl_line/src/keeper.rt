//! Where the lines of users outlast the process.
ghost use Rattle.std.specs.Prelude.{◌≡◌, List, ℕ, IfErr, IfOk, OnErr, OnOk, ⊤};
ghost use Rattle.nesl_session_meaning.specs.State.{Log, recorded_lines};
ghost use Rattle.nesl_session_meaning.specs.Response.{Reply};
ghost use Rattle.nesl_session_meaning.specs.Solo.{Responds};
ghost use Rattle.nesl_house.specs.Renewal.{renewed};
ghost use Rattle.nesl_line.specs.Keeping.{IsTakenUp, MarkOf};

use nesl_house::lease::{Lease, Receipt};
use nesl_session::session::Session;
use std::alloc::Global;

/// Why a session can't be taken up, or a line isn't kept.
#[derive(Clone, Copy, PartialEq, Eq, Debug)]
pub enum KeepFault {
    /// Memory ran out.
    Memory,
    /// The disk failed. The number is that of the system's error, if there was one.
    Disk(Option<i32>),
    /// The file would be longer than 2^60 bytes.
    Full,
    /// The file doesn't fit.
    Strange(Mismatch),
}

/// Why a file doesn't fit. Its lines are counted from 1, and the first one is the head.
#[derive(Clone, Copy, PartialEq, Eq, Debug)]
pub enum Mismatch {
    /// The head isn't one of this version.
    Head,
    /// The session doesn't store this line of the file.
    Line(usize),
    /// The session in memory has lines already, and this line of the file isn't the one that the session stored.
    Session(usize),
}

/// What a session had before a line: the number of lines recorded until the last reset, and the number of lines stored
/// since.
#[derive(Clone, Copy, PartialEq, Eq, Debug)]
pub struct Mark {
    pub cleared: u64,
    pub stored: usize,
}

impl Mark {
    /// The mark of a session.
    pub fn of(session: &Session) -> Mark
        ensures { MarkOf result session.now }
    {
        Mark {
            cleared: session.cleared(),
            stored: session.lines().len(),
        }
    }
}

/// A lease whose session is the one that was kept. If its lines were restored, there is a receipt for them.
pub struct TakenUp {
    pub lease: Lease,
    pub restored: Option<Receipt>,
}

/// A lease whose session could not be taken up, and is as it was.
pub struct NotTakenUp {
    pub lease: Lease,
    pub fault: KeepFault,
}

/// Whose session isn't kept, by the place in the roster, and why.
#[derive(Clone, Copy, PartialEq, Eq, Debug)]
pub struct Unkept {
    pub place: usize,
    pub fault: KeepFault,
}

/// Keeps the session of one user.
pub trait Keeper {
    /// This session is kept: it comes back if the process ends now.
    ghost keeps: { Self → Log → Type 0 };

    /// If the process ended at any moment from the one keeper to the other, one of these two sessions comes back.
    ghost leaves: { Self → Self → Log → Log → Type 0 };

    /// It has failed, and may keep nothing from now on.
    ghost has_failed: { Self → Type 0 };

    /// Finds what is kept of a user. A session that has no line yet is replaced by what is found. Any other session
    /// must be what is found.
    fn take_up(&mut self, alloc: Global, user: &[u8], lease: Lease) -> Result<TakenUp, NotTakenUp>
        requires { lease.counted ≡ recorded_lines lease.seat.session }
        ensures taken { IfOk result (λ r. IsTakenUp lease r.lease) }
        ensures kept { IfOk result (λ r. keeps self.new r.lease.seat.session) }
        ensures left { IfOk result (λ r. leaves self.old self.new r.lease.seat.session r.lease.seat.session) }
        ensures refused { IfErr result (λ r. r.lease ≡ lease) };

    /// Keeps what a line did to a session, which had this mark before the line. If that fails, the line must get no
    /// answer.
    fn keep(
        &mut self,
        alloc: Global,
        line: &[u8],
        was: Mark,
        session: &Session,
    ) -> Result<(), KeepFault>
        requires { (old : Log) × (reply : Reply) × keeps self.old old × MarkOf was old
            × Responds old line.now reply session.now }
        ensures kept { OnOk result (keeps self.new session.now) }
        ensures left { (old : Log) (reply : Reply) → keeps self.old old → MarkOf was old
            → Responds old line.now reply session.now → leaves self.old self.new old session.now }
        ensures failed { OnErr result (has_failed self.new) };

    /// Keeps the session that began in the place of the one that was kept. If that fails, either may come back.
    fn renew(&mut self, alloc: Global, session: &Session) -> Result<(), KeepFault>
        requires { (old : Log) × keeps self.old old × (session.now ≡ renewed old) }
        ensures kept { OnOk result (keeps self.new session.now) }
        ensures left { (old : Log) → keeps self.old old → session.now ≡ renewed old
            → leaves self.old self.new old session.now }
        ensures failed { OnErr result (has_failed self.new) };
}

/// Makes a keeper for each connection.
pub trait Archive {
    type Keeper: Keeper + Drop + Send;

    /// A keeper that has taken up no session yet.
    fn keeper(&self) -> Self::Keeper;

    /// Whether its keepers keep anything.
    fn is_keeping(&self) -> bool;
}

/// Keeps nothing, and never fails.
impl Keeper for () {
    ghost keeps = { λ _ _. ⊤ };

    ghost leaves = { λ _ _ _ _. ⊤ };

    ghost has_failed = { λ _. ⊥ };

    fn take_up(
        &mut self,
        _alloc: Global,
        _user: &[u8],
        lease: Lease,
    ) -> Result<TakenUp, NotTakenUp> {
        let _ = lease.session().lines();
        Ok(TakenUp {
            lease,
            restored: None,
        })
    }

    fn keep(
        &mut self,
        _alloc: Global,
        _line: &[u8],
        _was: Mark,
        _session: &Session,
    ) -> Result<(), KeepFault> {
        Ok(())
    }

    fn renew(&mut self, _alloc: Global, _session: &Session) -> Result<(), KeepFault> {
        Ok(())
    }
}

impl Archive for () {
    type Keeper = ();

    fn keeper(&self) {}

    fn is_keeping(&self) -> bool {
        false
    }
}
