//! Runs what the command line asks for.
ghost use Rattle.std.specs.Prelude.{◌≡◌, ℕ, Bool, List, Option, IfOk, OnOk, OnErr, IfErr, Err, map};
ghost use Rattle.clap.specs.Words.{HasKind};
ghost use Rattle.clap.specs.declared.error.Error as clap;
ghost use Rattle.nesl_house.specs.Roster.{IsRoster, new_house};
ghost use Rattle.nesl_line.specs.declared.exchange.End.TheVariants as end;
ghost use Rattle.nesl_words.specs.Wanted.{limits_wanted};
ghost use Rattle.nesl_words.specs.Words.{faults_of, task_of, users_of};
ghost use Rattle.nesl_cli.specs.Program.{limits_by, Batched, IsCarriedOut, BatchFails, Served, TaskFails, Untouched};
ghost use Rattle.nesl_cli.specs.declared.failure.Failure.{Failure};
ghost use Rattle.nesl_cli.specs.declared.failure.Refusal.TheVariants as refusal;

use crate::costs::write_costs;
use crate::failure::{Failure, Refusal};
use crate::kept::run_keep;
use crate::prompt::{PromptDevices, run_prompt};
use crate::terms::limits_by;
use linked_list_allocator::LocalHeap;
use nesl_house::house::House;
use nesl_house::manner::{InHeap, Manner, Plainly};
use nesl_kept::folder::KeptFolders;
use nesl_line::batch::batch_by;
use nesl_line::device::{Sink, Source};
use nesl_line::exchange::Ran;
use nesl_line::hinted::batch_with_hints;
use nesl_prompt::hints::Hints;
use nesl_prompt::shelf::Shelf;
use nesl_session::limits::Limits;
use nesl_words::grade_words::Grading;
use nesl_words::limit_words::LimitWords;
use nesl_words::words::{self, BatchWords, NewKeys, Service, Task};
use std::alloc::{AllocError, Global};
use std::mem::ManuallyDrop;

/// The limits of each session, unless others are given by words: units of work, elements, lines and bytes.
pub const LIMITS: Limits = Limits {
    line_work: 1_000_000,
    session_work: 100_000_000,
    elements: 100_000,
    transcript_lines: 10_000,
    transcript_bytes: 1_048_576,
};

/// A service that is to be offered to these users, in the order of their places.
#[derive(Drop)]
pub struct Offer<'a> {
    pub users: Vec<&'a str>,
    pub service: Service<'a>,
}

/// Keys that are to be made for these users.
#[derive(Drop)]
pub struct KeysOffer<'a> {
    pub users: Vec<&'a str>,
    pub keys: NewKeys<'a>,
}

/// A request of an operator: its words, and the path by which the service is reached.
#[derive(Drop)]
pub struct RequestOffer<'a> {
    pub words: Vec<&'a str>,
    pub path: Option<&'a str>,
}

/// Submissions that are to be graded.
#[derive(Drop)]
pub struct GradeOffer<'a> {
    pub submissions: Vec<&'a str>,
    pub grading: Grading<'a>,
}

/// What the caller has to do.
#[derive(Drop)]
pub enum Offered<'a> {
    Service(Offer<'a>),
    Keys(KeysOffer<'a>),
    Request(RequestOffer<'a>),
    Grade(GradeOffer<'a>),
}

/// Does what the command line asks for. It runs a batch, its costs or a prompt, or looks at kept sessions. For a
/// service, for keys, for a request or for a grading it returns what is offered, which the caller has to carry out.
pub fn carry_out<'a, S: Source, W: Sink, F: Shelf + KeptFolders>(
    alloc: Global,
    words: &'a [&'a str],
    devices: &PromptDevices<'_, F>,
    reader: &mut S,
    writer: &mut W,
) -> Result<Option<Offered<'a>>, Refusal<'a>>
    ensures comes { IfOk result (λ offered.
        IsCarriedOut devices.now.terminals offered (map (λ word. word.now) words.entry.now)
        (S.left reader.old) (S.left reader.new) (W.held writer.old) (W.held writer.new)) }
    ensures failed { (failure : Failure) → result ≡ Err (refusal.Run failure)
        → TaskFails devices.now.terminals (task_of (map (λ word. word.now) words.entry.now)) failure
        (users_of (map (λ word. word.now) words.entry.now))
        (S.left reader.old) (S.left reader.new) (W.held writer.old) (W.held writer.new) }
    ensures words { (error : clap.Error) → result ≡ Err (refusal.Words error)
        → HasKind (faults_of (map (λ word. word.now) words.entry.now)) error
        × Untouched (S.left reader.old) (S.left reader.new) (W.held writer.old) (W.held writer.new) }
{
    let wanted = match words::read(alloc, words) {
        Ok(wanted) => wanted,
        Err(error) => return Err(Refusal::Words(error)),
    };
    let users = wanted.users;
    match wanted.task {
        Task::Batch(batch) => match run_batch(alloc, users.as_slice(), batch, reader, writer) {
            Ok(()) => Ok(None),
            Err(failure) => Err(Refusal::Run(failure)),
        },
        Task::Costs(costs) => match write_costs(alloc, users.as_slice(), costs, reader, writer) {
            Ok(()) => Ok(None),
            Err(failure) => Err(Refusal::Run(failure)),
        },
        Task::Prompt(prompt) => {
            let style = devices.terminals.style(prompt.is_hinted);
            let files = devices.guarded(prompt.has_files);
            match run_prompt(alloc, &files, style, prompt.limits, reader, writer) {
                Ok(()) => Ok(None),
                Err(failure) => Err(Refusal::Run(failure)),
            }
        }
        Task::Keep(keep) => match run_keep(alloc, devices.files, keep, users.as_slice(), writer) {
            Ok(()) => Ok(None),
            Err(failure) => Err(Refusal::Run(failure)),
        },
        Task::Service(service) => Ok(Some(Offered::Service(Offer { users, service }))),
        Task::Keys(keys) => Ok(Some(Offered::Keys(KeysOffer { users, keys }))),
        Task::Request(path) => Ok(Some(Offered::Request(RequestOffer { words: users, path }))),
        Task::Grade(grading) => Ok(Some(Offered::Grade(GradeOffer {
            submissions: users,
            grading,
        }))),
    }
}

// Runs a batch for these users.
fn run_batch<'a, S: Source, W: Sink>(
    alloc: Global,
    users: &[&'a str],
    batch: BatchWords,
    reader: &mut S,
    writer: &mut W,
) -> Result<(), Failure<'a>>
    ensures served { OnOk result (Served batch.is_hinted end.Input (limits_by (limits_wanted batch.limits))
        (map (λ user. user.now) users.now)
        (S.left reader.old) (S.left reader.new) (W.held writer.old) (W.held writer.new)) }
    ensures failed { IfErr result (λ failure. BatchFails failure batch.is_hinted
        (limits_by (limits_wanted batch.limits)) (map (λ user. user.now) users.now)
        (S.left reader.old) (S.left reader.new) (W.held writer.old) (W.held writer.new)) }
{
    let house = run_in_new_house(alloc, users, batch, reader, writer)?;
    // The program ends after a batch, and the system takes back the memory of the house at once.
    let _house = ManuallyDrop::new(house);
    Ok(())
}

// Runs a batch in a new house of these users, and returns the house.
fn run_in_new_house<'a, S: Source, W: Sink>(
    alloc: Global,
    users: &[&'a str],
    batch: BatchWords,
    reader: &mut S,
    writer: &mut W,
) -> Result<House, Failure<'a>>
    ensures served { OnOk result (Served batch.is_hinted end.Input (limits_by (limits_wanted batch.limits))
        (map (λ user. user.now) users.now)
        (S.left reader.old) (S.left reader.new) (W.held writer.old) (W.held writer.new)) }
    ensures failed { IfErr result (λ failure. BatchFails failure batch.is_hinted
        (limits_by (limits_wanted batch.limits)) (map (λ user. user.now) users.now)
        (S.left reader.old) (S.left reader.new) (W.held writer.old) (W.held writer.new)) }
{
    let (heap, is_hinted) = (batch.heap, batch.is_hinted);
    let mut house = open_house(alloc, users, batch.limits)?;
    let Ok(ran) = answer_lines(alloc, reader, writer, &mut house, heap, is_hinted) else {
        return Err(Failure::Memory);
    };
    match Failure::of_end(ran.end) {
        None => Ok(house),
        Some(failure) => Err(failure),
    }
}

// Makes a house for these users, whose sessions have these limits. Nothing is read or written if it is refused.
pub(crate) fn open_house<'a>(
    alloc: Global,
    users: &[&'a str],
    limits: LimitWords,
) -> Result<House, Failure<'a>>
    ensures roster { OnOk result (IsRoster (map (λ user. user.now) users.now)) }
    ensures opened { IfOk result (λ house. house
        ≡ new_house (limits_by (limits_wanted limits)) (map (λ user. user.now) users.now)) }
    ensures failed { IfErr result (λ failure. (is_hinted : Bool) (left held : Option (List ℕ))
        → BatchFails failure is_hinted (limits_by (limits_wanted limits)) (map (λ user. user.now) users.now)
        left left held held) }
{
    let Ok(names) = copy_names(alloc, users) else {
        return Err(Failure::Memory);
    };
    match House::new(alloc, names.as_slice(), limits_by(limits)) {
        Ok(house) => Ok(house),
        Err(fault) => Err(Failure::of_roster(fault, users)),
    }
}

// Has a house answer the lines of a batch, evaluated in a heap of this size if there is to be one.
fn answer_lines<S: Source, W: Sink>(
    alloc: Global,
    reader: &mut S,
    writer: &mut W,
    house: &mut House,
    heap: Option<usize>,
    is_hinted: bool,
) -> Result<Ran, AllocError>
    ensures batch { IfOk result (λ ran. Batched is_hinted ran.end ran.lines
        (S.left reader.old) (S.left reader.new) (W.held writer.old) (W.held writer.new) house.old house.new) }
    ensures err { OnErr result (Untouched (S.left reader.old) (S.left reader.new) (W.held writer.old)
        (W.held writer.new)) }
{
    match heap {
        None => Ok(answer_lines_by(alloc, reader, writer, house, &Plainly, is_hinted)),
        Some(size) => {
            let heap = LocalHeap::new(alloc, size)?;
            Ok(answer_lines_by(alloc, reader, writer, house, &InHeap(&heap), is_hinted))
        }
    }
}

// Has a house answer the lines of a batch, each evaluated in this manner.
fn answer_lines_by<S: Source, W: Sink, M: Manner>(
    alloc: Global,
    reader: &mut S,
    writer: &mut W,
    house: &mut House,
    manner: &M,
    is_hinted: bool,
) -> Ran
    ensures { Batched is_hinted result.end result.lines
        (S.left reader.old) (S.left reader.new) (W.held writer.old) (W.held writer.new) house.old house.new }
{
    if is_hinted {
        batch_with_hints(alloc, reader, writer, house, manner, &Hints)
    } else {
        batch_by(alloc, reader, writer, house, manner)
    }
}

/// Copies the names of the users as bytes, in order.
pub fn copy_names(alloc: Global, users: &[&str]) -> Result<Vec<Vec<u8>>, AllocError>
    ensures { IfOk result (λ names. map (λ name. name.items) names.items ≡ map (λ user. user.now) users.now) }
{
    let mut names = Vec::new(alloc);
    for user in users {
        names.push(Vec::from_slice(alloc, user.as_bytes())?)?;
    }
    Ok(names)
}
