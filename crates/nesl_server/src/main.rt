//! The program `pazkindu`: NESL sessions over standard input and output, or over sockets.
#![tactic(auto)]

ghost use Rattle.std.specs.Prelude.{◌≡◌, ◌⊎◌};
ghost use Rattle.std.specs.Process.{exit_status};
ghost use Rattle.clap.specs.Values.{kind_of};
ghost use Rattle.nesl_cli.specs.Failures.{status_after, status_of, words_status_of};

mod disk;
mod graded;
mod kept;
mod keys;
mod lessons;
mod offer;
mod request;
mod ring;
mod standard;
mod users;

use crate::disk::Disk;
use crate::standard::fill_standard;
use clap::error::ErrorKind;
use nesl_cli::failure::{Failure, Refusal, status_after, words_status};
use nesl_cli::prompt::{PromptDevices, Terminals};
use nesl_cli::run::{self, Offer, Offered};
use nesl_keep_file::Storage;
use nesl_kept::folder::KeptFolders;
use nesl_line::device::{Device, Sink, Source};
use nesl_operator::facts::Resident;
use nesl_prompt::shelf::Shelf;
use nesl_service::service::ANSWER_BYTES;
use nesl_system::key_file::ReadKeys;
use nesl_system::log_file::Append;
use nesl_system::replace::Replace;
use nesl_system::socket::Sockets;
use nesl_words::words::example;
use std::alloc::{AllocError, Global};
use std::fs::File;
use std::io::{self, BufWriter, Eprint, IsTerminal, Print};
use std::net::{Net, TcpListener, TcpStream};
use std::process::ExitCode;
use std::random::RandomSource;
use std::rt::{Env, Files};
use std::sync::Wait;
use std::thread::{Builder, Threads};
use std::time::Clock;
use std::{env, thread};

/// The stack of the thread on which the program runs. An account of an expression recurs on it, over as many as 1,000
/// levels. Only what is touched takes memory.
const STACK_BYTES: usize = 16_777_216;

/// An upper bound for the length of a subcommand in bytes.
const COMMAND_BYTES: usize = 16;

fn main(rt: HostRuntime) -> ExitCode {
    if fill_standard(&rt).is_err() {
        return ExitCode::FAILURE;
    }
    thread::scope(thread::scope_env(), &rt, |scope| {
        let work = || {
            let alloc = rt.alloc();
            let args = match read_arguments(&rt, alloc) {
                Ok(args) => args,
                Err(failure) => return report_failure(&rt, failure),
            };
            let Ok(words) = borrow_words(alloc, args.as_slice()) else {
                return report_failure(&rt, memory_failure(&rt));
            };
            let words = words.as_slice();
            let Ok(writer) = BufWriter::with_capacity(alloc, ANSWER_BYTES, rt.stdout()) else {
                return report_failure(&rt, memory_failure(&rt));
            };
            let mut reader = Device::new(rt.stdin());
            let mut writer = Device::new(writer);
            let disk = Disk { rt: &rt };
            let devices = PromptDevices {
                terminals: find_terminals(&rt),
                files: &disk,
            };
            run_program(&rt, alloc, words, &devices, &mut reader, &mut writer)
        };
        let builder = Builder::new().stack_size(STACK_BYTES);
        match builder.spawn_scoped(scope, work) {
            Ok(running) => running.join(&rt),
            // The thread could not be made. This is reported like memory that ran out.
            Err(_) => report_failure(&rt, memory_failure(&rt)),
        }
    })
}

// Finds out which of standard input and output are terminals.
fn find_terminals(rt: &HostRuntime) -> Terminals {
    Terminals {
        input: rt.stdin().is_terminal(),
        output: rt.stdout().is_terminal(),
    }
}

// Returns the failure for memory that ran out, by the subcommand. The subcommand is read without allocating.
fn memory_failure(rt: &impl Env) -> Failure<'static> {
    let mut word = [0u8; COMMAND_BYTES];
    let Ok(len) = rt.arg(1, &mut word) else {
        return Failure::out_of_memory(&[]);
    };
    match word.get(..len).map(str::from_utf8) {
        Some(Ok(word)) => Failure::out_of_memory(&["", word]),
        Some(Err(_)) | None => Failure::out_of_memory(&[]),
    }
}

// Reads the command line, the program's name first.
fn read_arguments(rt: &HostRuntime, alloc: Global) -> Result<Vec<String>, Failure<'static>> {
    match collect_arguments(rt, alloc) {
        Ok(args) => Ok(args),
        Err(error) if error.kind() == io::ErrorKind::InvalidData => Err(Failure::Encoding),
        Err(_) => Err(memory_failure(rt)),
    }
}

fn collect_arguments(rt: &HostRuntime, alloc: Global) -> io::Result<Vec<String>> {
    let args = env::args(rt)?;
    Ok(args.collect::<Vec<String>>(alloc)?)
}

fn borrow_words(alloc: Global, args: &[String]) -> Result<Vec<&str>, AllocError> {
    args.iter()
        .map(|arg| arg.as_str())
        .collect::<Vec<&str>>(alloc)
}

// Runs what the command line asks for, reports a failure, and returns the exit status.
fn run_program<
    R: Net<Stream = TcpStream, Listener = TcpListener>
        + Threads
        + Wait
        + Clock
        + Print
        + Eprint
        + Files<File = File>
        + Storage
        + RandomSource
        + Replace
        + Append
        + ReadKeys
        + Resident
        + Sockets
        + Alloc
        + Clone
        + Drop
        + Send
        + Sync
        + 'static,
    F: Shelf + KeptFolders,
    S: Source,
    W: Sink,
>(
    rt: &R,
    alloc: Global,
    words: &[&str],
    devices: &PromptDevices<'_, F>,
    reader: &mut S,
    writer: &mut W,
) -> ExitCode {
    match run::carry_out(alloc, words, devices, reader, writer) {
        Ok(None) => ExitCode::SUCCESS,
        Ok(Some(Offered::Service(offer))) => run_service(rt, alloc, &offer, devices.files),
        Ok(Some(Offered::Keys(offer))) => {
            finish_offer(rt, keys::make(rt, alloc, &offer, devices.files))
        }
        Ok(Some(Offered::Request(offer))) => finish_offer(rt, request::ask(rt, alloc, &offer)),
        Ok(Some(Offered::Grade(offer))) => {
            graded::run_grading(rt, alloc, &offer, devices.terminals.output)
        }
        Err(Refusal::Words(error)) => report_refusal(rt, words, &error),
        Err(Refusal::Run(failure)) => report_failure(rt, failure),
    }
}

// Runs the offered service for the users who are named and those of its file, and returns the exit status.
fn run_service<
    R: Net<Stream = TcpStream, Listener = TcpListener>
        + Threads
        + Wait
        + Clock
        + Print
        + Eprint
        + Storage
        + Replace
        + Append
        + ReadKeys
        + Resident
        + Sockets
        + Clone
        + Drop
        + Send
        + Sync
        + 'static,
    F: Shelf + KeptFolders,
>(rt: &R, alloc: Global, offer: &Offer<'_>, shelf: &F) -> ExitCode {
    let text = match users::read(alloc, offer, shelf) {
        Ok(text) => text,
        Err(failure) => return report_failure(rt, failure),
    };
    let lessons = match lessons::read(rt, alloc, offer, shelf) {
        Ok(lessons) => lessons,
        Err(failure) => return report_failure(rt, failure),
    };
    match users::add(alloc, offer, text) {
        Ok(offer) => finish_offer(rt, offer::keep(rt, alloc, &offer, lessons)),
        Err(failure) => report_failure(rt, failure),
    }
}

// Prints the text for a command line that is refused, or that asks for help. Memory that ran out is reported like other
// failures. The status is 1 if the text can't be printed.
fn report_refusal<R: Print + Eprint>(rt: &R, words: &[&str], error: &clap::Error) -> ExitCode
    ensures { (exit_status result ≡ words_status_of (kind_of error.now)) ⊎ (exit_status result ≡ 1) }
{
    if error.kind() == ErrorKind::OutOfMemory {
        return report_failure(rt, Failure::out_of_memory(words));
    }
    match print_refusal(rt, words, error) {
        Ok(()) => ExitCode::from(words_status(error)),
        Err(_) => ExitCode::FAILURE,
    }
}

// Prints the text of a refusal, and after it an example if the text has none.
fn print_refusal<R: Print + Eprint>(rt: &R, words: &[&str], error: &clap::Error) -> io::Result<()> {
    error.print(rt)?;
    match error.kind() {
        ErrorKind::DisplayHelp | ErrorKind::DisplayVersion => Ok(()),
        ErrorKind::DisplayHelpOnMissingArgumentOrSubcommand => Ok(()),
        _ => rt.eprintln(example(words)),
    }
}

// Reports the failure of a service, if it failed, and returns the exit status.
fn finish_offer(rt: &impl Eprint, kept: Result<(), Failure<'_>>) -> ExitCode
    ensures { exit_status result ≡ status_after kept.entry }
{
    let status = status_after(&kept);
    match kept {
        Ok(()) => ExitCode::from(status),
        Err(failure) => report_failure(rt, failure),
    }
}

// Reports a failure on standard error, and returns its exit status.
fn report_failure(rt: &impl Eprint, failure: Failure<'_>) -> ExitCode
    ensures { exit_status result ≡ status_of failure.entry }
{
    match rt.eprintln(failure) {
        Ok(()) => ExitCode::from(failure.status()),
        Err(_) => ExitCode::from(failure.status()),
    }
}
