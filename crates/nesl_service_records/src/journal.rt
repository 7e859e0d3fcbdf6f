//! The events that a service and its connections report.
ghost use Rattle.std.specs.Prelude.{◌≡◌};
ghost use Rattle.nesl_service_records.specs.Ends.{ending_of};

use crate::accepting::AcceptFault;
use crate::helm::Helm;
use crate::kept::{KeptLine, KeptSum};
use nesl_line::exchange::End;
use nesl_line::keeper::KeepFault;
use nesl_session::limits::Remaining;
use std::time::Duration;

/// A connection: its number, counted from 1, the peer's port, and whether it is a WebSocket.
#[derive(Clone, Copy, PartialEq, Eq, Debug)]
pub struct Caller {
    pub number: u64,
    pub port: u16,
    pub is_web: bool,
}

/// The seat that a connection was given for its first line.
#[derive(Clone, Copy, PartialEq, Eq, Debug)]
pub enum Seat<'a> {
    User(&'a [u8]),
    /// The line names no user of the roster.
    Unknown,
    /// The user has another connection.
    Busy,
}

/// What a connection missed: what did not come in time, or its seat.
#[derive(Clone, Copy, PartialEq, Eq, Debug)]
pub enum Missed {
    FirstLine,
    Line,
    /// The peer did not take an answer.
    Taking,
    /// A newer connection of the user has the seat.
    Seat,
    /// An operator ended the connection.
    Leave,
}

/// Why a connection ended.
#[derive(Clone, Copy, PartialEq, Eq, Debug)]
pub enum Ending {
    /// The peer ended its input.
    Input,
    /// The peer got a fault for its first line, since its user is unknown or busy.
    TurnedAway,
    /// The first line did not arrive whole in time.
    NoFirstLine,
    /// A later line did not arrive whole in time.
    Idle,
    /// The peer did not take an answer in time.
    NotTaken,
    /// A newer connection of the user has the seat.
    Replaced,
    /// An operator ended the connection.
    Dismissed,
    ReadFault,
    WriteFault,
    NoMemory,
}

impl Ending {
    /// All endings, in the order in which they are counted.
    pub const ALL: [Ending; 10] = [
        Ending::Input,
        Ending::TurnedAway,
        Ending::NoFirstLine,
        Ending::Idle,
        Ending::NotTaken,
        Ending::Replaced,
        Ending::Dismissed,
        Ending::ReadFault,
        Ending::WriteFault,
        Ending::NoMemory,
    ];

    /// Returns why a connection ended: by the end of its lines, whether it was turned away, and what it missed.
    pub fn of(end: End, is_turned_away: bool, missed: Option<Missed>) -> Ending
        ensures { result ≡ ending_of end is_turned_away missed }
    {
        match end {
            End::Input if is_turned_away => Ending::TurnedAway,
            End::Input => match missed {
                Some(Missed::Seat) => Ending::Replaced,
                Some(Missed::Leave) => Ending::Dismissed,
                Some(Missed::FirstLine | Missed::Line | Missed::Taking) | None => Ending::Input,
            },
            End::ReadFault => match missed {
                Some(Missed::FirstLine) => Ending::NoFirstLine,
                Some(Missed::Line) => Ending::Idle,
                Some(Missed::Seat) => Ending::Replaced,
                Some(Missed::Leave) => Ending::Dismissed,
                Some(Missed::Taking) | None => Ending::ReadFault,
            },
            End::WriteFault => match missed {
                Some(Missed::Taking) => Ending::NotTaken,
                Some(Missed::Seat) => Ending::Replaced,
                Some(Missed::Leave) => Ending::Dismissed,
                Some(Missed::FirstLine | Missed::Line) | None => Ending::WriteFault,
            },
            End::NoMemory => Ending::NoMemory,
        }
    }

    /// The words for it in the log and in the counters.
    pub fn words(self) -> &'static str {
        match self {
            Ending::Input => "end of input",
            Ending::TurnedAway => "turned away",
            Ending::NoFirstLine => "no first line",
            Ending::Idle => "idle",
            Ending::NotTaken => "answer not taken",
            Ending::Replaced => "newer connection",
            Ending::Dismissed => "ended by operator",
            Ending::ReadFault => "read fault",
            Ending::WriteFault => "write fault",
            Ending::NoMemory => "no memory",
        }
    }
}

/// A line of a caller that was answered. `fault` is the place of its fault in `FAULTS`. `work` is the work that the
/// answer states, or 0. `took` is the time from the line's arrival, or from the previous answer, to the answer's first
/// byte, if it was measured.
#[derive(Clone, Copy, PartialEq, Eq, Debug)]
pub struct Answered {
    pub caller: Caller,
    pub fault: Option<usize>,
    pub work: u64,
    pub took: Option<Duration>,
}

/// A connection that has ended.
#[derive(Clone, Copy, PartialEq, Eq, Debug)]
pub struct Visit<'a> {
    /// The user, if one was seated.
    pub user: Option<&'a [u8]>,
    /// The number of lines that were answered.
    pub lines: u64,
    pub ending: Ending,
    /// How long the connection lasted, if the clock could be read.
    pub took: Option<Duration>,
    /// What was kept of its lines, if sessions are kept.
    pub kept: Option<KeptSum>,
}

/// Receives the events of a service. The events of a connection come from the thread that serves it.
pub trait Journal {
    /// All threads are ready, and connections are accepted from now on. If the result is false, none is accepted.
    fn opened(&self) -> bool;

    fn begun(&self, caller: Caller);

    /// The first line was answered.
    fn seated(&self, caller: Caller, seat: Seat<'_>);

    fn ended(&self, caller: Caller, visit: &Visit<'_>);

    /// Whether each answer and each request for a helper is to be reported.
    fn is_counting(&self) -> bool;

    /// A line was answered; first lines count too.
    fn answered(&self, answered: &Answered);

    /// A helper was requested.
    fn asked(&self, is_granted: bool);

    /// A line of a user was kept. Journals that don't count may ignore it.
    fn kept(&self, _kept: KeptLine) {}

    /// The service stopped accepting connections, since that failed for good. Journals without a log may ignore it.
    fn accept_failed(&self, _fault: AcceptFault) {}

    /// The kept session of a user could not be taken up. The user was turned away, and the service goes on. Journals
    /// without a log may ignore it.
    fn not_taken_up(&self, _user: Option<&[u8]>, _fault: KeepFault) {}

    /// A line of a user could not be kept. It got no answer, and the service ends. Journals without a log may ignore
    /// it.
    fn keep_failed(&self, _user: Option<&[u8]>, _fault: KeepFault) {}

    /// This is left to the session of a place of the roster, which was taken up or has got a line. Journals without an
    /// operator may ignore it.
    fn stands(&self, _place: usize, _left: Remaining) {}

    /// Whether an operator may act on the service.
    fn has_operator(&self) -> bool {
        false
    }

    /// Lets an operator act on the service until it has ended. It is called once, beside the threads of the service.
    fn attend<H: Helm>(&self, _helm: &H) {}

    /// The last thread of the service has ended. Nothing is left for an operator to do.
    fn over(&self) {}
}

/// A journal that ignores all events.
#[derive(Clone, Copy)]
pub struct NoJournal;

impl Journal for NoJournal {
    fn opened(&self) -> bool {
        true
    }

    fn begun(&self, _caller: Caller) {}

    fn seated(&self, _caller: Caller, _seat: Seat<'_>) {}

    fn ended(&self, _caller: Caller, _visit: &Visit<'_>) {}

    fn is_counting(&self) -> bool {
        false
    }

    fn answered(&self, _answered: &Answered) {}

    fn asked(&self, _is_granted: bool) {}
}
