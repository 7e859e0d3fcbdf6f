//! How a run of the program fails.
ghost use Rattle.std.specs.Prelude.{◌≡◌, ℕ, Bool, List, Option, IfSome, map, slice_get};
ghost use Rattle.nesl_session_meaning.specs.declared.limits.Limits.{Limits};
ghost use Rattle.nesl_house.specs.Roster.{IsRefused};
ghost use Rattle.clap.specs.Values.{kind_of};
ghost use Rattle.nesl_cli.specs.Failures.{failure_of, memory_failure_of, status_after, status_of, words_status_of};
ghost use Rattle.nesl_cli.specs.Program.{BatchFails};

use crate::costs::CostsFault;
use crate::prompt::PromptFault;
use clap::error::ErrorKind;
use nesl_house::roster::NewFault;
use nesl_kept::failure::LookFailure;
use nesl_kept::folder::PlaceFault;
use nesl_line::exchange::End;
use nesl_prompt::shelf::ShelfFault;
use nesl_service::service::ServeFault;
use nesl_service_records::system::SystemError;
use nesl_system::refusal::{KeysRefusal, SocketRefusal};
use std::alloc::AllocError;
use thiserror::Error;

/// Why a run failed. Its text goes to standard error.
#[derive(Clone, Copy, PartialEq, Eq, Debug, Error)]
pub enum Failure<'a> {
    #[error("batch: read fault")]
    Read,
    #[error("batch: write fault")]
    Write,
    #[error("batch: no memory")]
    Memory,
    #[error("{0}")]
    Serve(ServeFault),
    #[error("roster: bad count")]
    Count,
    #[error("roster: bad name {0}")]
    Name(&'a str),
    #[error("roster: {0} stands twice")]
    Twice(&'a str),
    #[error("words: not UTF-8")]
    Encoding,
    /// The costs could not be written.
    #[error("{0}")]
    Costs(CostsFault),
    /// This text is no value of `n`.
    #[error("csv: bad value {0}")]
    Value(&'a str),
    /// Another program listens on this port.
    #[error("serve: socket fault\nport {0} is taken")]
    Taken(u16),
    /// The counters of a service can't be written into this file, for this reason.
    #[error("serve: can't write {0}\n{1}")]
    Stats(&'a str, ShelfFault),
    /// Sessions can't be kept in this folder, for this reason.
    #[error("serve: can't keep sessions in {0}\n{1}")]
    Folder(&'a str, FolderRefusal),
    /// Kept sessions could not be looked at.
    #[error("{0}")]
    Kept(LookFailure<'a>),
    /// Keys can't be written into this file, for this reason.
    #[error("keys: can't write {0}\n{1}")]
    Keys(&'a str, KeysRefusal),
    /// Keys can't be read from this file, for this reason.
    #[error("serve: can't read keys in {0}\n{1}")]
    NoKeys(&'a str, KeysRefusal),
    /// Memory ran out before keys were made.
    #[error("keys: no memory")]
    KeysMemory,
    /// A header is to name the users of a page, and there is no page.
    #[error("serve: --user-header needs --web")]
    NoPage,
    /// The users can't be read from this file, for this reason.
    #[error("serve: can't read users in {0}\n{1}")]
    Users(&'a str, UsersRefusal),
    /// The lessons of this folder can't be shown, for this reason.
    #[error("serve: can't show the lessons in {0}\n{1}")]
    Lessons(&'a str, LessonsRefusal),
    /// A service is to be offered to nobody.
    #[error("serve: no users: name them, or list them in the file of --users")]
    NoUsers,
    /// An address is to be listened at that others reach, and users have no keys.
    #[error("serve: --bind needs --keys")]
    Open,
    /// This text is no IP address.
    #[error("serve: bad address {0}")]
    Address(&'a str),
    /// An operator can't be listened to by this path, or a monitor by this port, for this reason.
    #[error("serve: can't listen at {0}\n{1}")]
    Socket(&'a str, SocketRefusal),
    /// A request could not be answered by the service of this path, for this reason.
    #[error("control: {0}: {1}")]
    Request(&'a str, SocketRefusal),
    /// Memory ran out before a request was made.
    #[error("control: no memory")]
    RequestMemory,
    /// Sessions are to be kept, and to have other limits than those with which they come back.
    #[error("serve: sessions that --keep keeps have the usual limits")]
    KeptLimits,
    /// A prompt ended before the end of input.
    #[error("{0}")]
    Prompt(PromptFault),
}

/// Why sessions can't be kept in a folder.
#[derive(Clone, Copy, PartialEq, Eq, Debug, Error)]
pub enum FolderRefusal {
    #[error("another process serves this folder")]
    Taken,
    #[error("it isn't a folder")]
    NotAFolder,
    #[error("the system refuses it: {0}")]
    Failed(SystemError),
    /// The system gave no number for its error.
    #[error("the system refuses it")]
    Refused,
}

/// Why users can't be read from a file.
#[derive(Clone, Copy, PartialEq, Eq, Debug, Error)]
pub enum UsersRefusal {
    #[error("it isn't UTF-8")]
    Encoding,
    #[error("{0}")]
    File(ShelfFault),
}

/// Why the lessons of a folder can't be shown.
#[derive(Clone, Copy, PartialEq, Eq, Debug, Error)]
pub enum LessonsRefusal {
    #[error("no memory")]
    Memory,
    #[error("it isn't UTF-8")]
    Encoding,
    #[error("no name in it ends in .md")]
    Empty,
    #[error("{0}")]
    Place(PlaceFault),
    /// This number of replies is another than the lessons show.
    #[error("replies that differ: {0}")]
    Replies(u64),
}

impl From<AllocError> for LessonsRefusal {
    fn from(_error: AllocError) -> LessonsRefusal {
        LessonsRefusal::Memory
    }
}

impl From<PlaceFault> for LessonsRefusal {
    fn from(fault: PlaceFault) -> LessonsRefusal {
        match fault {
            PlaceFault::Memory => LessonsRefusal::Memory,
            fault => LessonsRefusal::Place(fault),
        }
    }
}

/// Why a command line led to no complete run.
#[derive(Debug, Drop, Error)]
pub enum Refusal<'a> {
    /// The command line was refused, or asks for help or for the version.
    #[error("{0}")]
    Words(clap::Error),
    /// The run failed.
    #[error("{0}")]
    Run(Failure<'a>),
}

impl<'a> Failure<'a> {
    /// The failure for a roster that is refused; nothing was read or written by then.
    pub fn of_roster(fault: NewFault, users: &[&'a str]) -> Failure<'a>
        requires { IsRefused (map (λ user. user.now) users.now) fault }
        ensures { (is_hinted : Bool) (limits : Limits) (left held : Option (List ℕ))
            → BatchFails result is_hinted limits (map (λ user. user.now) users.now) left left held held }
    {
        match fault {
            NewFault::Count => Failure::Count,
            NewFault::Name { place } => Failure::Name(name_at(users, place)),
            NewFault::Twice { place } => Failure::Twice(name_at(users, place)),
            NewFault::Memory => Failure::Memory,
        }
    }

    /// The failure where memory ran out before a run. It depends on the subcommand; the first word is the program's
    /// name.
    pub fn out_of_memory(words: &[&str]) -> Failure<'a>
        ensures { result ≡ memory_failure_of (map (λ word. word.now) words.now) }
    {
        match words.get(1) {
            Some(word) if *word == "serve" => Failure::Serve(ServeFault::Memory),
            Some(word) if *word == "repl" => Failure::Prompt(PromptFault::Memory),
            Some(word) if *word == "keep" => Failure::Kept(LookFailure::Memory),
            Some(word) if *word == "keys" => Failure::KeysMemory,
            Some(word) if *word == "control" => Failure::RequestMemory,
            _ => Failure::Memory,
        }
    }

    /// The failure for an end of a batch. The end of input is no failure.
    pub fn of_end(end: End) -> Option<Failure<'a>>
        ensures { result ≡ failure_of end }
    {
        match end {
            End::Input => None,
            End::ReadFault => Some(Failure::Read),
            End::WriteFault => Some(Failure::Write),
            End::NoMemory => Some(Failure::Memory),
        }
    }

    /// The exit status: 1 for devices and memory, 2 for mistakes in the command line.
    pub fn status(self) -> u8
        ensures { result ≡ status_of self.entry }
    {
        match self {
            Failure::Read | Failure::Write | Failure::Memory | Failure::Serve(_) => 1,
            Failure::Encoding | Failure::Count | Failure::Name(_) | Failure::Twice(_) => 2,
            Failure::Costs(_) | Failure::Taken(_) | Failure::Prompt(_) => 1,
            Failure::Stats(_, _) | Failure::Folder(_, _) | Failure::Keys(_, _) => 1,
            Failure::NoKeys(_, _) | Failure::Users(_, _) | Failure::KeysMemory => 1,
            Failure::Lessons(_, _) => 1,
            Failure::Value(_) | Failure::NoPage | Failure::KeptLimits => 2,
            Failure::NoUsers | Failure::Open | Failure::Address(_) => 2,
            Failure::Socket(_, _) | Failure::Request(_, _) | Failure::RequestMemory => 1,
            Failure::Kept(LookFailure::Name(_)) => 2,
            Failure::Kept(_) => 1,
        }
    }
}

/// The exit status for a command line that was refused or asks for help. It is 0 for help and the version, 1 if memory
/// ran out, and else 2.
pub fn words_status(error: &clap::Error) -> u8
    ensures { result ≡ words_status_of (kind_of error.now) }
{
    match error.kind() {
        ErrorKind::DisplayHelp | ErrorKind::DisplayVersion => 0,
        ErrorKind::OutOfMemory => 1,
        _ => 2,
    }
}

/// The exit status after a service.
pub fn status_after(kept: &Result<(), Failure<'_>>) -> u8
    ensures { result ≡ status_after kept.now }
{
    match kept {
        Ok(()) => 0,
        Err(failure) => (*failure).status(),
    }
}

// Returns the name at a place, or an empty one.
fn name_at<'a>(users: &[&'a str], place: usize) -> &'a str
    ensures { IfSome (slice_get users.now place) (λ user. result ≡ user) }
{
    match users.get(place) {
        Some(name) => name,
        None => "",
    }
}
